//! The part of a word that a refusal is about.
use crate::case::Case;
use crate::marks::{in_word, place_wanted};
use crate::place::arguments;
use crate::sentences::Code;
use nb_words::Command;
use nv_base::OutOfMemory;
use nv_excerpt::Span;
use nv_parts::{Part, Reason, bad_address, bad_mac, foreign_part};
use std::alloc::Global;

/// Which part of the word of the reply is wrong of which it has no MAC or no address, and why.
pub(crate) fn part_of(
    alloc: Global,
    case: &Case,
    command: Option<&Command>,
) -> Result<Option<Part>, OutOfMemory> {
    let Some(command) = command else {
        return Ok(None);
    };
    let number = case.told.number();
    let Some(place) = place_wanted(case, command, number) else {
        return Ok(None);
    };
    match (case.told.code(), case.argument_place(command, number)) {
        (Code::BadMac, _) => Ok(Some(bad_mac(alloc, place, case.text(number))?)),
        (Code::BadAddress, Some(at)) => bad_address(alloc, place, arguments(command), at),
        _ => Ok(None),
    }
}

/// What is said of the word that has no MAC or no address.
pub(crate) fn reason_of(
    alloc: Global,
    case: &Case,
    command: Option<&Command>,
) -> Result<&'static str, OutOfMemory> {
    let reason = match (part_of(alloc, case, command)?, case.told.code()) {
        (Some(part), _) => part.reason,
        (None, Code::BadMac) => Reason::NoMac,
        (None, _) => Reason::NoAddress,
    };
    Ok(reason.says())
}

// Where the part of the word of the reply stands in its text that is wrong, if it is known.
fn bounds_of(
    alloc: Global,
    case: &Case,
    command: Option<&Command>,
) -> Result<Option<(usize, usize)>, OutOfMemory> {
    if matches!(case.told.code(), Code::NotInProfile) {
        return foreign_part(alloc, case.text(case.told.number()));
    }
    Ok(match part_of(alloc, case, command)? {
        Some(part) => Some((part.start, part.end)),
        None => None,
    })
}

/// The bytes of the line that are wrong of the word that the reply tells: a part of it, or with its quotes the whole word.
pub(crate) fn word_mark(
    alloc: Global,
    case: &Case,
    command: Option<&Command>,
) -> Result<Option<Span>, OutOfMemory> {
    let number = case.told.number();
    let whole = case.text(number).len();
    Ok(match bounds_of(alloc, case, command)? {
        Some((start, end)) if end.saturating_sub(start) < whole => {
            in_word(case, number, start, end.saturating_sub(start))
        }
        _ => case.span(number),
    })
}
