//! Which line of a script made an object, or set it.
use nb_edit::option_count;
use nb_store::Records;
use nb_words::{Command, LineFault, read_commands};
use nv_base::{Items, Name, ObjId, OutOfMemory};
use std::alloc::Global;

/// A line of a script, by its number, from 1.
#[derive(Clone, Copy)]
pub struct Line<'s> {
    pub number: u64,
    /// Its bytes, without its newline.
    pub bytes: &'s [u8],
}

// A line that made objects: this one, and those of higher numbers up to the next line's.
#[derive(Clone, Copy)]
struct Made<'s> {
    first: ObjId,
    line: Line<'s>,
}

// A line that set a port by the command of this name.
#[derive(Clone, Copy)]
struct Setting<'s> {
    port: ObjId,
    command: &'static [u8],
    line: Line<'s>,
}

/// The lines that made objects and that set ports, in their order.
#[derive(Drop)]
pub(crate) struct Lines<'s> {
    made: Vec<Made<'s>>,
    settings: Vec<Setting<'s>>,
}

// The commands that set what is warned of.
static SETTERS: [&[u8]; 3] = [b"lsp-set-addresses", b"lsp-set-options", b"lsp-set-type"];

// The name of a command and its first word, where it has them.
fn name_and_first(command: &Command) -> Option<(&[u8], &[u8])> {
    let words = command.words.as_slice();
    let place = option_count(words);
    let name = words.get(place)?;
    let first = words.get(place.saturating_add(1))?;
    Some((name.text.as_slice(), first.text.as_slice()))
}

fn setter_named(name: &[u8]) -> Option<&'static [u8]> {
    SETTERS.iter().find(|setter| **setter == name).copied()
}

// The commands of a line that was done.
fn commands_of(alloc: Global, line: &[u8]) -> Result<Items<Command>, OutOfMemory> {
    match read_commands(alloc, line) {
        Ok(commands) => Ok(commands),
        Err(LineFault::Refused(_)) => Ok(Items::new(alloc)),
        Err(LineFault::Memory) => Err(OutOfMemory),
    }
}

// The port that a command sets, and the command's name.
fn set_by(
    alloc: Global,
    records: &Records,
    command: &Command,
) -> Result<Option<(ObjId, &'static [u8])>, OutOfMemory> {
    let Some((name, first)) = name_and_first(command) else {
        return Ok(None);
    };
    let Some(setter) = setter_named(name) else {
        return Ok(None);
    };
    let name = Name::from_slice(alloc, first)?;
    Ok(match records.port_id(&name) {
        Some(port) => Some((port, setter)),
        None => None,
    })
}

impl<'s> Lines<'s> {
    pub(crate) fn new(alloc: Global) -> Self {
        Lines {
            made: Vec::new(alloc),
            settings: Vec::new(alloc),
        }
    }

    /// Notes a line that was done, before which the next object would have had this number.
    pub(crate) fn note(
        &mut self,
        alloc: Global,
        next: u32,
        records: &Records,
        line: Line<'s>,
    ) -> Result<(), OutOfMemory> {
        if records.next() != next {
            self.made.push(Made {
                first: ObjId(next),
                line,
            })?;
        }
        self.note_settings(alloc, records, line)
    }

    fn note_settings(
        &mut self,
        alloc: Global,
        records: &Records,
        line: Line<'s>,
    ) -> Result<(), OutOfMemory> {
        let commands = commands_of(alloc, line.bytes)?;
        for command in commands.as_slice() {
            if let Some((port, command)) = set_by(alloc, records, command)? {
                self.settings.push(Setting {
                    port,
                    command,
                    line,
                })?;
            }
        }
        Ok(())
    }

    /// The line that made the object.
    pub(crate) fn that_made(&self, object: ObjId) -> Option<Line<'s>> {
        let made = self
            .made
            .iter()
            .rev()
            .find(|made| made.first.0 <= object.0)?;
        Some(made.line)
    }

    /// The last line that set the port by this command, or else the one that made it.
    pub(crate) fn that_set(&self, port: ObjId, command: &[u8]) -> Option<Line<'s>> {
        let setting = self.settings.iter().rev().find(|setting| setting.port.0 == port.0
            && setting.command == command);
        match setting {
            Some(setting) => Some(setting.line),
            None => self.that_made(port),
        }
    }
}
