ghost use Rattle.std.specs.Prelude.{◌≡◌, true, IfOk};
ghost use Rattle.std.specs.List.{AllByRecursion, list_all};
ghost use Rattle.nb_model.specs.Readable.{IsReadable};
ghost use Rattle.nb_words.specs.Commands.{is_small};

use nb_edit::read_command;
use nb_records::Edit;
use nb_words::{Command, LineFault};
use nv_base::Items;
use std::alloc::Global;

// The edit that a command asks for.
fn readable_edit(alloc: Global, command: &Command) -> Result<Edit, LineFault>
    requires { is_small command.now ≡ true }
    ensures { IfOk result (λ edit. IsReadable edit) }
{
    read_command(alloc, command)
}

/// The edits that the commands ask for.
pub(crate) fn readable_edits(alloc: Global, commands: &[Command]) -> Result<Items<Edit>, LineFault>
    requires { list_all is_small commands.now ≡ true }
    ensures { IfOk result (λ edits. AllByRecursion IsReadable edits) }
{
    let mut edits = Items::new(alloc);
    for command in commands {
        edits.push(readable_edit(alloc, command)?)?;
    }
    Ok(edits)
}
