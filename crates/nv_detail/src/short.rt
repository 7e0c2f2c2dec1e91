//! What became of a packet, in short.
use crate::names::put_port;
use nb_store::Records;
use net_meaning::Cause;
use nv_base::{OutOfMemory, put_dec};
use tr_walk::Event;

// So many ports are named.
const NAMED: usize = 4;

// How often each thing happened to a packet and its copies, and why one was dropped first.
#[derive(Clone, Copy)]
struct Tally {
    outputs: usize,
    drops: usize,
    cause: Option<Cause>,
    rejects: usize,
    lost: usize,
}

fn tally_of(events: &[Event]) -> Tally {
    let mut tally = Tally {
        outputs: 0,
        drops: 0,
        cause: None,
        rejects: 0,
        lost: 0,
    };
    for event in events {
        match event {
            Event::Hit(_) => {}
            Event::Output(_, _) => tally.outputs = tally.outputs.saturating_add(1),
            Event::Drop(_, cause) => {
                tally.drops = tally.drops.saturating_add(1);
                tally.cause = Some(tally.cause.unwrap_or(*cause));
            }
            Event::Reject(_) => tally.rejects = tally.rejects.saturating_add(1),
            Event::HopLimit(_) => tally.lost = tally.lost.saturating_add(1),
        }
    }
    tally
}

/// Appends what became of a packet and its copies, in short: the ports by which they went out, and how often one was dropped, was
/// rejected, or would have taken too many hops.
pub(crate) fn put_short(
    out: &mut Vec<u8>,
    records: &Records,
    events: &[Event],
) -> Result<(), OutOfMemory> {
    let tally = tally_of(events);
    let start = out.len();
    put_outputs(out, records, events, tally.outputs)?;
    put_drops(out, start, &tally)?;
    put_count(out, start, b"rejected", tally.rejects)?;
    put_count(out, start, b"out of hops", tally.lost)?;
    if out.len() == start {
        out.extend_from_slice(b"nothing comes of it")?;
    }
    Ok(())
}

// The first ports by which copies went out, and how many others there are.
fn put_outputs(
    out: &mut Vec<u8>,
    records: &Records,
    events: &[Event],
    outputs: usize,
) -> Result<(), OutOfMemory> {
    let mut named: usize = 0;
    for event in events {
        if let Event::Output(port, _) = event {
            if named == NAMED {
                break;
            }
            if named == 0 {
                out.extend_from_slice(b"output by ")?;
            } else {
                out.extend_from_slice(b", ")?;
            }
            put_port(out, records, *port)?;
            named = named.saturating_add(1);
        }
    }
    if outputs > named {
        out.extend_from_slice(b" and ")?;
        put_dec(out, outputs.saturating_sub(named) as u128)?;
        out.extend_from_slice(b" more")?;
    }
    Ok(())
}

// How many were dropped, and why the first was.
fn put_drops(out: &mut Vec<u8>, start: usize, tally: &Tally) -> Result<(), OutOfMemory> {
    put_count(out, start, b"dropped", tally.drops)?;
    if let Some(cause) = tally.cause {
        if tally.drops == 1 {
            out.extend_from_slice(b" (")?;
        } else {
            out.extend_from_slice(b" (first by ")?;
        }
        out.extend_from_slice(cause.name().as_bytes())?;
        out.push(b')')?;
    }
    Ok(())
}

// How often something happened, unless it never did.
fn put_count(
    out: &mut Vec<u8>,
    start: usize,
    what: &[u8],
    count: usize,
) -> Result<(), OutOfMemory> {
    if count == 0 {
        return Ok(());
    }
    if out.len() > start {
        out.extend_from_slice(b"; ")?;
    }
    out.extend_from_slice(what)?;
    if count > 1 {
        out.push(b' ')?;
        put_dec(out, count as u128)?;
        out.extend_from_slice(b" times")?;
    }
    Ok(())
}
