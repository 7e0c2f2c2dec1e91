//! What may stand at a place, and how far a text begins it.
ghost use Rattle.std.specs.Prelude.{◌≡◌, ◌≤◌, ◌++◌, length, map, IfOk};
ghost use Rattle.std.specs.List.{list_any};
ghost use Rattle.act_parse.specs.inner.Wanted as want;
ghost use Rattle.act_parse.specs.inner.Reading as reading;
ghost use Rattle.act_parse.specs.inner.Gives.{Reads, shown};

use crate::keyword::{begins_block, begins_step};
use crate::lexer::{is_at, name_of};
use crate::number::{address_of, decimal_of};
use crate::stop::{Read, Stop};
use crate::value::value_of;
use expr_core::Bits;
use nv_base::{Field, OutOfMemory};
use std::alloc::Global;

/// What may stand at a place.
#[derive(Clone, Copy)]
pub(crate) enum Wanted {
    /// A word that begins an action.
    Action,
    /// A word that begins an action without a block.
    Step,
    /// The name of a field of this width.
    Field(u32),
    /// A decimal not below the first number and below the limit.
    Decimal {
        /// The first number.
        first: u32,
        /// The limit.
        limit: u32,
    },
    /// An address.
    Address,
    /// The name of a port or of a multicast group.
    Name,
    /// A constant or a field that a part of a field may become.
    Value(Field, Bits),
}

/// Whether the field has this width and a name that begins with these bytes.
fn begins_field_of(width: u32, front: &[u8], field: Field) -> bool
    ensures { result ≡ want.begins_field_of width front.now field }
{
    u32::from(field.width()) == width && is_at(front, field.name().as_bytes())
}

/// Whether the name of a field of this width begins with these bytes.
fn begins_field(width: u32, front: &[u8]) -> bool
    ensures { result ≡ want.begins_field width front.now }
{
    Field::all()
        .iter()
        .any(|field| begins_field_of(width, front, *field))
}

/// Whether a word that is wanted begins with these bytes.
fn begins_word(wanted: Wanted, front: &[u8]) -> bool
    ensures { result ≡ want.begins_word wanted front.now }
{
    match wanted {
        Wanted::Action => begins_block(front) || begins_step(front),
        Wanted::Step => begins_step(front),
        Wanted::Field(width) => begins_field(width, front),
        Wanted::Value(field, bits) => begins_field(bits.count(field.width()), front),
        Wanted::Decimal { .. } | Wanted::Address | Wanted::Name => false,
    }
}

/// Whether the text is a number, an address, a name or a value that is wanted.
fn is_whole(alloc: Global, wanted: Wanted, text: &[u8]) -> Result<bool, OutOfMemory>
    ensures { IfOk result (λ is. is ≡ want.is_whole wanted text.now) }
{
    match wanted {
        Wanted::Decimal { first, limit } => Ok(decimal_of(alloc, first, limit, text)?.is_some()),
        Wanted::Address => Ok(address_of(alloc, text)?.is_some()),
        Wanted::Name => Ok(name_of(text).is_some()),
        Wanted::Value(field, bits) => Ok(value_of(alloc, field, bits, text)?.is_some()),
        Wanted::Action | Wanted::Step | Wanted::Field(_) => Ok(false),
    }
}

// What numbers, addresses, names and values may end with are the ends of these: after each front of one, the least one that it begins
// ends so, or with one more digit.
const ENDINGS: [&str; 13] = [
    "00:00:00:00:00:00",
    "0.0.0.0",
    "_MC_flood",
    "_MC_unknown",
    "1",
    "2",
    "3",
    "4",
    "5",
    "6",
    "7",
    "8",
    "9",
];

/// Whether the front with this end is what is wanted.
fn is_ended(alloc: Global, wanted: Wanted, front: &[u8], end: &[u8]) -> Result<bool, OutOfMemory>
    ensures { IfOk result (λ is. is ≡ want.is_whole wanted (front.now ++ end.now)) }
{
    let mut text = Vec::new(alloc);
    text.extend_from_slice(front)?;
    text.extend_from_slice(end)?;
    is_whole(alloc, wanted, &text)
}

/// Whether the front with some end of this text, which may be empty, is what is wanted.
fn ends_with(alloc: Global, wanted: Wanted, front: &[u8], text: &[u8]) -> Result<bool, OutOfMemory>
    ensures { IfOk result (λ is. is ≡ want.ends_with wanted front.now text.now) }
{
    let mut end = text;
    while let Some((_, rest)) = end.split_first() {
        if is_ended(alloc, wanted, front, end)? {
            return Ok(true);
        }
        end = rest;
    }
    is_whole(alloc, wanted, front)
}

/// Whether the front with some end of one of these texts is what is wanted.
fn ends_with_any(
    alloc: Global,
    wanted: Wanted,
    front: &[u8],
    texts: &[&str],
) -> Result<bool, OutOfMemory>
    ensures { IfOk result (λ is. is ≡ list_any (want.ends_with wanted front.now) (map shown texts.now)) }
{
    for text in texts {
        if ends_with(alloc, wanted, front, text.as_bytes())? {
            return Ok(true);
        }
    }
    Ok(false)
}

/// Whether the front with some end is what is wanted.
#[tactic(auto, unfolding(crate::specs::inner::Wanted::endings))]
fn can_end(alloc: Global, wanted: Wanted, front: &[u8]) -> Result<bool, OutOfMemory>
    ensures { IfOk result (λ is. is ≡ want.can_end wanted front.now) }
{
    ends_with_any(alloc, wanted, front, &ENDINGS)
}

/// Whether what is wanted begins with these bytes, one or more.
fn begins(alloc: Global, wanted: Wanted, front: &[u8]) -> Result<bool, OutOfMemory>
    ensures { IfOk result (λ is. is ≡ want.begins wanted front.now) }
{
    if begins_word(wanted, front) {
        return Ok(true);
    }
    can_end(alloc, wanted, front)
}

/// How many bytes of the text begin what is wanted.
fn reach(alloc: Global, wanted: Wanted, text: &[u8]) -> Result<usize, OutOfMemory>
    ensures value { IfOk result (λ len. len ≡ want.reach wanted text.now) }
    ensures within { IfOk result (λ len. len ≤ length text.now) }
{
    for len in 0..text.len() {
        if !begins(alloc, wanted, &text[..len + 1])? {
            return Ok(len);
        }
    }
    Ok(text.len())
}

/// No reading goes on with the byte after those that begin what is wanted.
pub(crate) fn lost<'a, T>(alloc: Global, wanted: Wanted, text: &'a [u8]) -> Read<'a, T>
    ensures reads { Reads result (reading.lost wanted text.now) }
    ensures left { IfOk result (λ x. length x.1.now ≤ length text.now) }
{
    let len = reach(alloc, wanted, text)?;
    Err(Stop::Stuck(text.len() - len))
}
