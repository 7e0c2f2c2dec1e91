//! The words of a line: changes of keys and of ranges of keys.
use crate::led::Asked;
use inc_feed::Keys;
use inc_table::{Change, Delta, Owned};
use nv_base::{OutOfMemory, read_number};
use std::alloc::Global;

/// Why a line is refused.
#[derive(Drop)]
pub(crate) enum Fault {
    /// The word at this place, from 1, is none that is known there.
    Word(usize),
    /// The key of the word at this place is not above the one before.
    Order(usize),
    /// A value that is put is there already, or a key that goes is not there.
    Unchanged,
    /// The node is stale.
    Stale,
    /// Memory ran out.
    Memory,
}

impl From<OutOfMemory> for Fault {
    fn from(_: OutOfMemory) -> Self {
        Fault::Memory
    }
}

/// The keys from one to another, and what they are put to, or none where they go.
struct Span {
    low: u32,
    high: u32,
    value: Option<u32>,
}

/// The delta of these words, the first of which has this place. A word is `KEY=VALUE`, `LOW..HIGH=VALUE`, `-KEY` or `-LOW..HIGH`.
pub(crate) fn read_delta(
    alloc: Global,
    words: &[&[u8]],
    first: usize,
) -> Result<Delta<u32, u32>, Fault> {
    let mut delta = Delta::new(alloc);
    let mut place = first;
    for word in words {
        let span = read_span(word).ok_or(Fault::Word(place))?;
        push_span(&mut delta, span, place)?;
        place = place.saturating_add(1);
    }
    Ok(delta)
}

/// What these words want, the first of which has this place, and the keys at which they say so: in any order, and any of them several
/// times. The last one of a key counts.
pub(crate) fn read_asked(
    alloc: Global,
    words: &[&[u8]],
    first: usize,
) -> Result<(Asked, Keys<u32>), Fault> {
    let mut values = Owned::new(alloc);
    let mut keys = Vec::new(alloc);
    let mut place = first;
    for word in words {
        let span = read_span(word).ok_or(Fault::Word(place))?;
        ask(&mut values, &mut keys, span)?;
        place = place.saturating_add(1);
    }
    Ok((Asked { values }, Keys::new(keys)))
}

// Wants at the keys of a span what it says.
fn ask(values: &mut Owned<u32, u32>, keys: &mut Vec<u32>, span: Span) -> Result<(), OutOfMemory> {
    let Span { low, high, value } = span;
    for key in low..=high {
        keys.push(key)?;
        match value {
            Some(value) => values.set(&key, value)?,
            None => {
                values.remove(&key);
            }
        }
    }
    Ok(())
}

// Puts the changes of a span last.
fn push_span(delta: &mut Delta<u32, u32>, span: Span, place: usize) -> Result<(), Fault> {
    let Span { low, high, value } = span;
    for key in low..=high {
        if !delta.is_below(&key) {
            return Err(Fault::Order(place));
        }
        let change = match value {
            Some(value) => Change::Put(value),
            None => Change::Gone,
        };
        delta.push(key, change)?;
    }
    Ok(())
}

fn read_span(word: &[u8]) -> Option<Span> {
    if let Some(keys) = word.strip_prefix(b"-") {
        let (low, high) = read_keys(keys)?;
        return Some(Span {
            low,
            high,
            value: None,
        });
    }
    let place = word.iter().position(|byte| *byte == b'=')?;
    let (low, high) = read_keys(&word[..place])?;
    let value = Some(read_key(&word[place + 1..])?);
    Some(Span { low, high, value })
}

// The first and the last key of `KEY` or `LOW..HIGH`.
fn read_keys(text: &[u8]) -> Option<(u32, u32)> {
    match text.iter().position(|byte| *byte == b'.') {
        None => {
            let key = read_key(text)?;
            Some((key, key))
        }
        Some(place) => {
            let high = text[place + 1..].strip_prefix(b".")?;
            Some((read_key(&text[..place])?, read_key(high)?))
        }
    }
}

/// A number of 32 bits.
pub(crate) fn read_key(text: &[u8]) -> Option<u32> {
    match read_number(text) {
        Ok(number) => u32::try_from(number).ok(),
        Err(_) => None,
    }
}
