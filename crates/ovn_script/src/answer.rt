use nb_cmds::{Line, Query, read_line};
use nb_words::LineFault;
use nv_base::{Name, OutOfMemory, put_dec};
use pkt_core::put_packet;
use std::alloc::Global;

// The name, after a space.
fn put_name(out: &mut Vec<u8>, name: &Name) -> Result<(), OutOfMemory> {
    out.push(b' ')?;
    out.extend_from_slice(name.as_slice())?;
    Ok(())
}

// The query, by its words.
fn put_query(out: &mut Vec<u8>, query: &Query) -> Result<(), OutOfMemory> {
    match query {
        Query::FlowList(datapath) => {
            out.extend_from_slice(b"lflow-list")?;
            if let Some(name) = datapath {
                put_name(out, name)?;
            }
        }
        Query::Trace { minimal, dp, micro } => {
            if *minimal {
                out.extend_from_slice(b"--minimal ")?;
            }
            out.extend_from_slice(b"trace")?;
            put_name(out, dp)?;
            put_name(out, &micro.inport)?;
            out.push(b' ')?;
            put_packet(out, &micro.packet)?;
        }
        Query::CtList => out.extend_from_slice(b"ct-list")?,
        Query::CtFlush => out.extend_from_slice(b"ct-flush")?,
        Query::NbrList => out.extend_from_slice(b"nbr-list")?,
        Query::NbrFlush => out.extend_from_slice(b"nbr-flush")?,
        Query::Dump => out.extend_from_slice(b"dump")?,
    }
    out.push(b'\n')?;
    Ok(())
}

// How many edits there are.
fn put_count(out: &mut Vec<u8>, count: usize) -> Result<(), OutOfMemory> {
    out.extend_from_slice(b"edits ")?;
    put_dec(out, count as u128)?;
    out.push(b'\n')?;
    Ok(())
}

/// Appends the answer to a line: the number of its edits, its query, or its refusal.
pub(crate) fn put_answer(alloc: Global, out: &mut Vec<u8>, line: &[u8]) -> Result<(), OutOfMemory> {
    match read_line(alloc, line) {
        Ok(Line::Nothing) => Ok(()),
        Ok(Line::Edits(edits)) => put_count(out, edits.as_slice().len()),
        Ok(Line::Query(query)) => put_query(out, &query),
        Err(LineFault::Refused(refusal)) => refusal.put_line(out),
        Err(LineFault::Memory) => Err(OutOfMemory),
    }
}
