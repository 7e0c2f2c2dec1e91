use act_core::{Action, is_well_formed, put_actions};
use act_parse::{ActionFault, parse_actions};
use nv_base::{OutOfMemory, put_dec};
use std::alloc::Global;

/// Why a line is no action list.
enum Fault {
    /// A token with which no reading goes on, at this offset in bytes.
    Syntax(u32),
    /// The line has 4 GiB or more.
    TooLong,
    /// Memory ran out.
    Memory,
}

impl From<ActionFault> for Fault {
    fn from(fault: ActionFault) -> Self {
        match fault {
            ActionFault::Syntax(offset) => Fault::Syntax(offset),
            ActionFault::Memory => Fault::Memory,
        }
    }
}

/// The action list that the line is.
fn read(alloc: Global, line: &[u8]) -> Result<Vec<Action>, Fault> {
    if line.len() > u32::MAX as usize {
        return Err(Fault::TooLong);
    }
    Ok(parse_actions(alloc, line)?.into_items())
}

fn put_list(out: &mut Vec<u8>, actions: &[Action]) -> Result<(), OutOfMemory> {
    if !is_well_formed(actions) {
        out.extend_from_slice(b"ill-formed: ")?;
    }
    put_actions(out, actions)
}

fn put_fault(out: &mut Vec<u8>, offset: u32) -> Result<(), OutOfMemory> {
    out.extend_from_slice(b"syntax ")?;
    put_dec(out, u128::from(offset))
}

fn put_too_long(out: &mut Vec<u8>) -> Result<(), OutOfMemory> {
    out.extend_from_slice(b"too-long")?;
    Ok(())
}

/// Appends the text of the line's action list, or its fault.
fn put_text(alloc: Global, out: &mut Vec<u8>, line: &[u8]) -> Result<(), OutOfMemory> {
    match read(alloc, line) {
        Ok(actions) => put_list(out, &actions),
        Err(Fault::Syntax(offset)) => put_fault(out, offset),
        Err(Fault::TooLong) => put_too_long(out),
        Err(Fault::Memory) => Err(OutOfMemory),
    }
}

/// Appends the answer to a line: the text of its action list, or its fault.
pub(crate) fn put_answer(alloc: Global, out: &mut Vec<u8>, line: &[u8]) -> Result<(), OutOfMemory> {
    put_text(alloc, out, line)?;
    out.push(b'\n')?;
    Ok(())
}
