ghost use Rattle.std.specs.Prelude.{◌≡◌, true};
ghost use Rattle.std.specs.List.{list_all};
ghost use Rattle.nb_words.specs.Commands.{is_small};

use crate::edit::put_edit;
use nb_edit::read_command;
use nb_records::Edit;
use nb_words::{Command, LineFault, read_commands};
use nv_base::{Items, OutOfMemory};
use std::alloc::Global;

/// Adds the edit that the command asks for.
fn push_edit(alloc: Global, edits: &mut Items<Edit>, command: &Command) -> Result<(), LineFault>
    requires { is_small command.now ≡ true }
{
    edits.push(read_command(alloc, command)?)?;
    Ok(())
}

/// The edits that the commands ask for.
fn read_each(alloc: Global, commands: &[Command]) -> Result<Items<Edit>, LineFault>
    requires { list_all is_small commands.now ≡ true }
{
    let mut edits = Items::new(alloc);
    for command in commands {
        push_edit(alloc, &mut edits, command)?;
    }
    Ok(edits)
}

/// The edits that the line asks for.
fn read_line(alloc: Global, line: &[u8]) -> Result<Items<Edit>, LineFault> {
    let commands = read_commands(alloc, line)?;
    read_each(alloc, commands.as_slice())
}

/// Appends the edits, a line each.
fn put_edits(out: &mut Vec<u8>, edits: &[Edit]) -> Result<(), OutOfMemory> {
    for edit in edits {
        put_edit(out, edit)?;
        out.push(b'\n')?;
    }
    Ok(())
}

/// Appends the answer to a line: its edits, a line each, or its refusal.
pub(crate) fn put_answer(alloc: Global, out: &mut Vec<u8>, line: &[u8]) -> Result<(), OutOfMemory> {
    match read_line(alloc, line) {
        Ok(edits) => put_edits(out, edits.as_slice()),
        Err(LineFault::Refused(refusal)) => refusal.put_line(out),
        Err(LineFault::Memory) => Err(OutOfMemory),
    }
}
