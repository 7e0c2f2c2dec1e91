//! A refused line, and what is known of it.
use crate::place::{argument, argument_number, arguments, name_of};
use crate::sentences::Code;
use crate::told::Told;
use nb_cmds::{Line, Task, read_line, task_of};
use nb_edit::{Verb, option_count};
use nb_store::Records;
use nb_words::{Command, LineFault, Word};
use nv_base::OutOfMemory;
use nv_excerpt::Span;
use std::alloc::Global;

/// A refused line, its words and commands, where it has any, and the network that it was run in.
#[derive(Clone, Copy)]
pub(crate) struct Case<'c> {
    pub line: &'c [u8],
    pub told: Told<'c>,
    pub spans: &'c [Span],
    pub words: &'c [Word],
    pub commands: &'c [Command],
    pub records: &'c Records,
}

impl<'c> Case<'c> {
    /// Where the word of this number stands.
    pub(crate) fn span(&self, number: usize) -> Option<Span> {
        self.spans.get(number.checked_sub(1)?).copied()
    }

    /// The bytes of the word of this number, without its quotes.
    pub(crate) fn text(&self, number: usize) -> &'c [u8] {
        match number.checked_sub(1) {
            Some(place) => match self.words.get(place) {
                Some(word) => word.text.as_slice(),
                None => b"",
            },
            None => b"",
        }
    }

    /// The command that the word of this number is in.
    pub(crate) fn command_with(&self, number: usize) -> Option<&'c Command> {
        let mut found = None;
        for command in self.commands {
            if command.first as usize <= number {
                found = Some(command);
            }
        }
        found
    }

    // The bytes of a command.
    fn raw_of(&self, command: &Command) -> &'c [u8] {
        let first = command.first as usize;
        let last = first
            .saturating_add(command.words.as_slice().len())
            .saturating_sub(1);
        match (self.span(first), self.span(last)) {
            (Some(start), Some(end)) => self.line.get(start.start..end.end).unwrap_or(b""),
            _ => b"",
        }
    }

    // Whether a command is refused by itself, whatever the network is, or is a query beside another one.
    fn is_refused(&self, alloc: Global, command: &Command) -> Result<bool, OutOfMemory> {
        if name_of(command).is_none() {
            return Ok(true);
        }
        match read_line(alloc, self.raw_of(command)) {
            Ok(Line::Query(_)) => Ok(self.commands.len() > 1),
            Ok(_) => Ok(false),
            Err(LineFault::Refused(_)) => Ok(true),
            Err(LineFault::Memory) => Err(OutOfMemory),
        }
    }

    // The first command that is refused by itself.
    fn first_refused(&self, alloc: Global) -> Result<Option<&'c Command>, OutOfMemory> {
        for command in self.commands {
            if self.is_refused(alloc, command)? {
                return Ok(Some(command));
            }
        }
        Ok(None)
    }

    /// The command that is refused, where the reply or the line tells which one.
    pub(crate) fn command(&self, alloc: Global) -> Result<Option<&'c Command>, OutOfMemory> {
        match self.told.code() {
            Code::WrongWords | Code::MatchSyntax | Code::MatchType | Code::BadMicroflow => {
                self.first_refused(alloc)
            }
            Code::UnknownCommand
            | Code::BadName
            | Code::BadMac
            | Code::BadAddress
            | Code::BadNumber
            | Code::NotInProfile => Ok(self.command_with(self.told.number())),
            _ => Ok(self.only_command()),
        }
    }

    // The command of a line that has one.
    fn only_command(&self) -> Option<&'c Command> {
        match self.commands {
            [command] => Some(command),
            _ => None,
        }
    }

    /// The place after the name of its command at which the word of this number stands.
    pub(crate) fn argument_place(&self, command: &Command, number: usize) -> Option<usize> {
        number.checked_sub(argument_number(command, 0))
    }
}

/// What the name of a command asks for in a script.
pub(crate) fn task_in(command: &Command) -> Option<Task> {
    task_of(name_of(command)?.text.as_slice())
}

/// The number in its line of the match of a command, or of its microflow.
pub(crate) fn match_number(command: &Command) -> Option<usize> {
    match task_in(command)? {
        Task::Edit(Verb::AclAdd | Verb::AclDel) => Some(argument_number(command, 3)),
        Task::Edit(_) => None,
        Task::Query(_) => {
            let count = arguments(command).len();
            Some(argument_number(command, count.checked_sub(1)?))
        }
    }
}

/// Whether a command has this option.
pub(crate) fn has_option(command: &Command, option: &[u8]) -> bool {
    let words = command.words.as_slice();
    let options = words.get(..option_count(words)).unwrap_or(&[]);
    options.iter().any(|word| word.text.as_slice() == option)
}

/// The text of the match of a command, where it has one.
pub(crate) fn match_text(command: &Command) -> &[u8] {
    match task_in(command) {
        Some(Task::Edit(Verb::AclAdd | Verb::AclDel)) => argument(command, 3),
        Some(Task::Query(_)) => match arguments(command).last() {
            Some(word) => word.text.as_slice(),
            None => b"",
        },
        _ => b"",
    }
}
