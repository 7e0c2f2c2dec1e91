//! Commands: the words of a line between the words `--`.
ghost use Rattle.std.specs.Prelude.{◌≡◌, ◌≤◌, Ok, length, true, IsTrue, ◌↔◌, IfOk, IfErr};
ghost use Rattle.std.specs.List.{list_all, slice_split};
ghost use Rattle.std.specs.Str.{is_utf8};
ghost use Rattle.nb_words.specs.Commands.{is_between, is_small, says_nothing, numbered, read_commands};
ghost use Rattle.nb_words.specs.Fault.{IsFaultOf};

use crate::LineFault;
use crate::word::{Word, is_separator, words_of};
use nb_records::Refusal;
use nv_base::{Items, OutOfMemory};
use std::alloc::Global;

/// A command of a line.
#[derive(Drop)]
pub struct Command {
    /// The number of its first word in the line, from 1.
    pub first: u32,
    /// Its words.
    pub words: Items<Word>,
}

/// The commands of a line, without its newline: none where it is blank or a comment. Each `--` without quotes separates
/// two commands. A line of more than 65,536 bytes is refused as too long, then one that is not UTF-8, then one with an
/// open quote. Where memory runs out the answer is `Memory`. The numbers of the words, and the places of their bytes,
/// have 32 bits.
#[tactic(auto, using(crate::proofs::Counts::no_more_words, crate::proofs::Small::commands_are_small))]
pub fn read_commands(alloc: Global, line: &[u8]) -> Result<Items<Command>, LineFault>
    ensures read { IfOk result (λ commands. read_commands line.now ≡ Ok commands) }
    ensures small { IfOk result (λ commands. list_all is_small commands ≡ true) }
    ensures refused { IfErr result (λ fault. IsFaultOf (read_commands line.now) fault) }
{
    if line.len() > 65_536 {
        return Err(LineFault::Refused(Refusal::LineTooLong));
    }
    if !is_utf8(line) {
        return Err(LineFault::Refused(Refusal::NotUtf8));
    }
    if says_nothing(line) {
        return Ok(Items::new(alloc));
    }
    match words_of(alloc, line)? {
        Some(words) => Ok(commands_of(alloc, words)?),
        None => Err(LineFault::Refused(Refusal::WrongWords)),
    }
}

// Whether the bytes are UTF-8.
#[tactic(auto, using(crate::proofs::Utf8::is_text, crate::proofs::Utf8::is_no_text))]
fn is_utf8(line: &[u8]) -> bool
    ensures { result ≡ is_utf8 line.now }
{
    match std::str::from_utf8(line) {
        Ok(_) => true,
        Err(_) => false,
    }
}

// Whether the line is blank or a comment.
fn says_nothing(line: &[u8]) -> bool
    ensures { result ≡ says_nothing line.now }
{
    for byte in line {
        if !is_separator(*byte) {
            return *byte == b'#';
        }
    }
    true
}

// The commands of these words.
#[tactic(auto, using(crate::proofs::Splits::command_grows, crate::proofs::Splits::command_ends))]
fn commands_of(alloc: Global, words: Items<Word>) -> Result<Items<Command>, OutOfMemory>
    requires few { length words ≤ 65536 }
    ensures { IfOk result (λ commands. commands ≡ numbered 1 (slice_split is_between words)) }
{
    let mut commands = Items::new(alloc);
    let mut first = 1;
    let mut number = 1;
    let mut command = Items::new(alloc);
    for word in words.into_items() {
        number += 1;
        if is_between(&word) {
            commands.push(Command {
                first,
                words: command,
            })?;
            first = number;
            command = Items::new(alloc);
        } else {
            command.push(word)?;
        }
    }
    commands.push(Command {
        first,
        words: command,
    })?;
    Ok(commands)
}

// Whether the word separates commands.
fn is_between(word: &Word) -> bool
    ensures { result ≡ is_between word.now }
{
    word.is_bare && word.text.as_slice() == b"--".as_slice()
}
