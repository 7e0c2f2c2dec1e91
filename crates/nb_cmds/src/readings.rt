ghost use Rattle.std.specs.Prelude.{◌≡◌, Ok};
ghost use Rattle.nb_records.specs.declared.edit.Edit.{Edit};
ghost use Rattle.nb_edit.specs.Commands.{read_command};
ghost use Rattle.nb_model.specs.Readable.{IsReadable};
ghost use Rattle.nb_words.specs.declared.command.Command.{Command};

/// An edit that a command asks for is readable.
pub fn what_commands_ask_for_is_readable()
    ensures { (command : Command) (edit : Edit) → read_command command ≡ Ok edit → IsReadable edit }
{}
