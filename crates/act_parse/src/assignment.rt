//! Actions that begin with the name of a field.
ghost use Rattle.std.specs.Prelude.{◌≡◌, ◌≤◌, length, IfOk};
ghost use Rattle.act_parse.specs.inner.Reading as reading;
ghost use Rattle.act_parse.specs.inner.Gives.{Reads};

use crate::ending::ended;
use crate::lexer::{after, after_word, is_at, token, tokens, word};
use crate::number::decimal;
use crate::stop::Read;
use crate::value::value;
use crate::wanted::{Wanted, lost};
use act_core::Step;
use expr_core::Bits;
use nv_base::{Field, field_of};
use std::alloc::Global;

/// Reads `..` and the last bit of a range, and `]`.
fn range<'a>(alloc: Global, width: u8, first: u8, text: &'a [u8]) -> Read<'a, Bits>
    ensures reads { Reads result (reading.range width first text.now) }
    ensures left { IfOk result (λ x. length x.1.now ≤ length text.now) }
{
    let ((), rest) = token("..", text)?;
    let (last, rest) = decimal(alloc, u32::from(first), u32::from(width), rest)?;
    let ((), rest) = tokens(&["]"], rest)?;
    Ok((Bits::Range(first, last as u8), rest))
}

/// Reads `]` after one bit, or the rest of a range.
fn last_bit<'a>(alloc: Global, width: u8, first: u8, text: &'a [u8]) -> Read<'a, Bits>
    ensures reads { Reads result (reading.last_bit width first text.now) }
    ensures left { IfOk result (λ x. length x.1.now ≤ length text.now) }
{
    if is_at(b".", text) {
        return range(alloc, width, first, text);
    }
    let ((), rest) = tokens(&["]"], text)?;
    Ok((Bits::Bit(first), rest))
}

/// Reads the bits of a field of this width, in brackets; all of them where there are no brackets.
fn bits<'a>(alloc: Global, width: u8, text: &'a [u8]) -> Read<'a, Bits>
    ensures reads { Reads result (reading.bits width text.now) }
    ensures left { IfOk result (λ x. length x.1.now ≤ length text.now) }
{
    match after("[", text) {
        Some(rest) => {
            let (first, rest) = decimal(alloc, 0, u32::from(width), rest)?;
            last_bit(alloc, width, first as u8, rest)
        }
        None => Ok((Bits::Whole, text)),
    }
}

/// Reads the name of a field of this width.
fn field_of_width<'a>(alloc: Global, width: u32, text: &'a [u8]) -> Read<'a, Field>
    ensures reads { Reads result (reading.field_of_width width text.now) }
    ensures left { IfOk result (λ x. length x.1.now ≤ length text.now) }
{
    match field_of(word(text)) {
        Some(field) if u32::from(field.width()) == width => Ok((field, after_word(text))),
        _ => lost(alloc, Wanted::Field(width), text),
    }
}

/// Reads `<->` and the other field of an exchange.
fn exchange<'a>(alloc: Global, field: Field, text: &'a [u8]) -> Read<'a, Step>
    ensures reads { Reads result (reading.exchange field text.now) }
    ensures left { IfOk result (λ x. length x.1.now ≤ length text.now) }
{
    let ((), rest) = tokens(&["<->", " "], text)?;
    let (other, rest) = field_of_width(alloc, u32::from(field.width()), rest)?;
    ended(Step::Exchange(field, other), &[";"], rest)
}

/// Reads `= ` and a value.
fn assigned<'a>(alloc: Global, field: Field, bits: Bits, text: &'a [u8]) -> Read<'a, Step>
    ensures reads { Reads result (reading.assigned field bits text.now) }
    ensures left { IfOk result (λ x. length x.1.now ≤ length text.now) }
{
    let ((), rest) = tokens(&["=", " "], text)?;
    value(alloc, field, bits, rest)
}

/// Whether all bits of a field are meant.
fn is_whole(bits: Bits) -> bool
    ensures { result ≡ reading.is_whole bits }
{
    matches!(bits, Bits::Whole)
}

/// Reads what is done with the part: `<->` and a field after a whole field, or `=` and a value.
fn sign_of_part<'a>(alloc: Global, field: Field, bits: Bits, text: &'a [u8]) -> Read<'a, Step>
    ensures reads { Reads result (reading.sign_of_part field bits text.now) }
    ensures left { IfOk result (λ x. length x.1.now ≤ length text.now) }
{
    if is_whole(bits) && is_at(b"<", text) {
        return exchange(alloc, field, text);
    }
    assigned(alloc, field, bits, text)
}

/// Reads the bits of a part, and what is done with it.
fn part<'a>(alloc: Global, field: Field, text: &'a [u8]) -> Read<'a, Step>
    ensures reads { Reads result (reading.part field text.now) }
    ensures left { IfOk result (λ x. length x.1.now ≤ length text.now) }
{
    let (bits, rest) = bits(alloc, field.width(), text)?;
    let ((), rest) = token(" ", rest)?;
    sign_of_part(alloc, field, bits, rest)
}

/// Whether the field is the one that `--` lowers.
fn is_ttl(field: Field) -> bool
    ensures { result ≡ reading.is_ttl field }
{
    matches!(field, Field::IpTtl)
}

/// Reads what follows the name of a field: `--;` after `ip.ttl`, or a part.
pub(crate) fn field_step<'a>(alloc: Global, field: Field, text: &'a [u8]) -> Read<'a, Step>
    ensures reads { Reads result (reading.field_step field text.now) }
    ensures left { IfOk result (λ x. length x.1.now ≤ length text.now) }
{
    if is_ttl(field) && is_at(b"-", text) {
        return ended(Step::DecTtl, &["--", ";"], text);
    }
    part(alloc, field, text)
}
