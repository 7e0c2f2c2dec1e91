//! What may stand at a place of a match.
use crate::sentences::Wanted;
use expr_parse::{MatchFault, parse_match};
use nv_base::OutOfMemory;
use std::alloc::Global;

// No word of a line has more bytes.
const LONGEST: usize = 65_536;

// The text before a place, without the blanks at its end.
fn before(text: &[u8], place: usize) -> &[u8] {
    text.get(..place).unwrap_or(text).trim_ascii_end()
}

// Whether a brace, a bracket or the like is open at the end of the text.
fn is_open(text: &[u8], open: u8, close: u8) -> bool {
    match text
        .iter()
        .rposition(|byte| *byte == open || *byte == close)
    {
        Some(at) => text.get(at) == Some(&open),
        None => false,
    }
}

// Whether the text ends with one of these signs.
fn ends_with_one(text: &[u8], signs: &[&[u8]]) -> bool {
    signs.iter().any(|sign| text.ends_with(sign))
}

// What may follow a text whose tokens are the beginning of a match.
fn wanted_after(text: &[u8]) -> Wanted {
    if is_open(text, b'[', b']') {
        if ends_with_one(text, &[b"[", b".."]) {
            Wanted::Bit
        } else {
            Wanted::BitEnd
        }
    } else if ends_with_one(text, &[b"=", b"<", b">", b"{", b",", b"/"]) {
        Wanted::Constant
    } else if is_open(text, b'{', b'}') {
        Wanted::ItemEnd
    } else if text.is_empty() || ends_with_one(text, &[b"&&", b"||", b"!", b"("]) {
        Wanted::Operand
    } else {
        Wanted::Continuation
    }
}

/// What may stand at the place of the first fault of a text that is no match.
pub(crate) fn wanted_at(alloc: Global, text: &[u8], place: usize) -> Result<Wanted, OutOfMemory> {
    if text.len() > LONGEST {
        return Ok(Wanted::Continuation);
    }
    match parse_match(alloc, text) {
        Err(MatchFault::Mixed(_)) => Ok(Wanted::Parentheses),
        Err(MatchFault::TooDeep(_)) => Ok(Wanted::FewerLevels),
        Err(MatchFault::Memory) => Err(OutOfMemory),
        Err(MatchFault::Syntax(_)) | Ok(_) => Ok(wanted_after(before(text, place))),
    }
}
