//! The place in a line that a refusal is about.
use crate::case::{Case, match_number};
use crate::fields::name_at;
use crate::part::word_mark;
use crate::pasted::late_option;
use crate::place::{argument_number, verb_in};
use crate::sentences::{Cause, Code};
use crate::wrong::wrong_words;
use nb_edit::{Place, Verb};
use nb_words::Command;
use nv_base::{Name, OutOfMemory};
use nv_excerpt::Span;
use std::alloc::Global;

// No line has more bytes.
const LINE_LIMIT: usize = 65_536;

// The first byte of a line that is not UTF-8.
fn first_bad_byte(line: &[u8]) -> Option<Span> {
    match std::str::from_utf8(line) {
        Ok(_) => None,
        Err(error) => Some(Span::of_byte(error.valid_up_to())),
    }
}

// The byte at this place of a match.
fn in_match(case: &Case, command: Option<&Command>, place: usize) -> Option<Span> {
    let span = case.span(match_number(command?)?)?;
    Some(Span::of_byte(span.place_of(case.line, place)))
}

/// The bytes at this place of a word, so many of them.
pub(crate) fn in_word(case: &Case, number: usize, place: usize, count: usize) -> Option<Span> {
    let span = case.span(number)?;
    let last = place.saturating_add(count).saturating_sub(1);
    Some(Span {
        start: span.place_of(case.line, place),
        end: span.place_of(case.line, last).saturating_add(1),
    })
}

// The field at this place of a match.
fn field_in_match(case: &Case, command: Option<&Command>, place: usize) -> Option<Span> {
    let number = match_number(command?)?;
    let name = name_at(case.text(number), place);
    in_word(case, number, place, name.len())
}

// The match of a command.
fn match_span(case: &Case, command: Option<&Command>) -> Option<Span> {
    case.span(match_number(command?)?)
}

// The place among the words of a command that names the object that it makes.
fn new_name_place(verb: Verb) -> Option<usize> {
    match verb {
        Verb::LsAdd | Verb::LrAdd | Verb::PgAdd | Verb::AsAdd => Some(0),
        Verb::LspAdd | Verb::LrpAdd => Some(1),
        _ => None,
    }
}

// The number of the word by which a command names the object that it makes.
fn new_name_number(command: &Command) -> Option<usize> {
    Some(argument_number(command, new_name_place(verb_in(command)?)?))
}

// Whether the word of this number names an object that its command makes.
fn is_new_name(case: &Case, number: usize) -> bool {
    match case.command_with(number) {
        Some(command) => new_name_number(command) == Some(number),
        None => false,
    }
}

// Whether a switch, a router or a port has the name.
fn is_there(alloc: Global, case: &Case, name: &[u8]) -> Result<bool, OutOfMemory> {
    let name = Name::from_slice(alloc, name)?;
    let is_datapath = case.records.datapath_of(&name).is_some();
    Ok(is_datapath || case.records.port_of(&name).is_some())
}

// The number of a word with this text, so many of which are passed over: one that names a new object, or one that does not.
fn word_named(case: &Case, name: &[u8], is_new: bool, skipped: usize) -> Option<usize> {
    let mut left = skipped;
    for (place, word) in case.words.iter().enumerate() {
        let number = place.saturating_add(1);
        if word.text.as_slice() == name && is_new_name(case, number) == is_new {
            if left == 0 {
                return Some(number);
            }
            left = left.saturating_sub(1);
        }
    }
    None
}

// The place of a text in another one.
fn place_in(text: &[u8], part: &[u8]) -> Option<usize> {
    text.windows(part.len().max(1))
        .position(|window| window == part)
}

// The name of a port in the microflow of a query.
fn in_microflow(case: &Case, command: Option<&Command>, name: &[u8]) -> Option<Span> {
    let number = match_number(command?)?;
    let place = place_in(case.text(number), name)?;
    in_word(case, number, place, name.len())
}

// Whether a load balancer has the name.
fn is_balancer(alloc: Global, case: &Case, name: &[u8]) -> Result<bool, OutOfMemory> {
    let name = Name::from_slice(alloc, name)?;
    Ok(case.records.lb_named(&name).is_some())
}

// Whether the first command with a name that leads to no object, or to another one, is passed over: where an object had the name before
// the line, that command removed or detached it; and where none had it, it made the load balancer that is of the other protocol.
fn is_passed_over(alloc: Global, case: &Case, name: &[u8]) -> Result<bool, OutOfMemory> {
    let was_there = is_there(alloc, case, name)? || is_balancer(alloc, case, name)?;
    Ok(match case.told.code() {
        Code::NoSuchObject => was_there,
        Code::WrongKind => !was_there,
        _ => false,
    })
}

// A name that leads to no object, or to another one: the first word that is it and makes no object.
fn old_name(
    alloc: Global,
    case: &Case,
    command: Option<&Command>,
) -> Result<Option<Span>, OutOfMemory> {
    let name = case.told.word(2);
    let skipped = usize::from(is_passed_over(alloc, case, name)?);
    let second = word_named(case, name, false, skipped);
    Ok(match second.or(word_named(case, name, false, 0)) {
        Some(number) => case.span(number),
        None => in_microflow(case, command, name),
    })
}

// A name that is taken: where it was not before the line, its first command with it made the object.
fn taken_name(alloc: Global, case: &Case) -> Result<Option<Span>, OutOfMemory> {
    let name = case.told.word(2);
    let skipped = usize::from(!is_there(alloc, case, name)?);
    Ok(match word_named(case, name, true, skipped) {
        Some(number) => case.span(number),
        None => None,
    })
}

// The name of a command.
fn name_span(case: &Case, command: Option<&Command>) -> Option<Span> {
    case.span(argument_number(command?, 0).checked_sub(1)?)
}

// The number of the word that shows why the words are wrong: an option after the name of its command before others.
fn wrong_number(case: &Case, command: Option<&Command>, cause: Option<Cause>) -> usize {
    match late_option(command, cause) {
        Some(number) => number,
        None => wrong_words(case, command).number,
    }
}

/// The bytes of the line that the refusal is about, where the line shows them.
pub(crate) fn mark_of(
    alloc: Global,
    case: &Case,
    command: Option<&Command>,
    cause: Option<Cause>,
) -> Result<Option<Span>, OutOfMemory> {
    Ok(match case.told.code() {
        Code::NotUtf8 => first_bad_byte(case.line),
        Code::LineTooLong => Some(Span::of_byte(LINE_LIMIT)),
        Code::WrongWords => case.span(wrong_number(case, command, cause)),
        Code::Exists => taken_name(alloc, case)?,
        Code::NoSuchObject | Code::WrongKind | Code::NotOnDatapath => {
            old_name(alloc, case, command)?
        }
        Code::MatchSyntax => in_match(case, command, case.told.number()),
        Code::MatchType => field_in_match(case, command, case.told.number()),
        Code::BadMicroflow => match_span(case, command),
        Code::Duplicate | Code::Limit => name_span(case, command),
        Code::BadMac | Code::BadAddress | Code::NotInProfile => word_mark(alloc, case, command)?,
        Code::UnknownCommand | Code::BadName | Code::BadNumber => case.span(case.told.number()),
    })
}

/// What stands at the place of the word that the refusal is about, where it is in a command that edits.
pub(crate) fn place_wanted(case: &Case, command: &Command, number: usize) -> Option<Place> {
    let place = case.argument_place(command, number)?;
    crate::place::place_at(verb_in(command)?, place)
}
