//! What a part of a field may become.
ghost use Rattle.std.specs.Prelude.{◌≡◌, ◌≤◌, length, IfOk};
ghost use Rattle.nv_base.specs.Field as field_words;
ghost use Rattle.act_parse.specs.inner.Wanted as want;
ghost use Rattle.act_parse.specs.inner.Reading as reading;
ghost use Rattle.act_parse.specs.inner.Gives.{Reads};

use crate::constant::constant;
use crate::ending::ended;
use crate::lexer::{is_at, name_len, name_of, token, value_len};
use crate::stop::Read;
use crate::wanted::{Wanted, lost};
use act_core::{Step, fits};
use expr_core::Bits;
use nv_base::{Field, Name, OutOfMemory, field_of};
use std::alloc::Global;

/// Whether the part may be given a name in double quotes.
fn takes_name(field: Field, bits: Bits) -> bool
    ensures { result ≡ reading.takes_name field bits }
{
    matches!((field, bits), (Field::Outport, Bits::Whole))
}

/// Another field that is as wide as the part.
fn field_value(field: Field, bits: Bits, text: &[u8]) -> Option<Step>
    ensures { result ≡ want.field_value field bits (field_words.field_of text.now) }
{
    match field_of(text) {
        Some(from) if u32::from(from.width()) == bits.count(field.width()) => Some(Step::Copy(
            field, bits, from,
        )),
        _ => None,
    }
}

/// What the part becomes, if the text is a constant that fits it or a field that is as wide.
pub(crate) fn value_of(
    alloc: Global,
    field: Field,
    bits: Bits,
    text: &[u8],
) -> Result<Option<Step>, OutOfMemory>
    ensures { IfOk result (λ found. found ≡ want.value_of field bits text.now) }
{
    match constant(alloc, text)? {
        Some(constant) => {
            if fits(bits.count(field.width()), constant) {
                Ok(Some(Step::Set(field, bits, constant)))
            } else {
                Ok(None)
            }
        }
        None => Ok(field_value(field, bits, text)),
    }
}

/// Reads a constant or a field, and `;`.
fn plain_value<'a>(alloc: Global, field: Field, bits: Bits, text: &'a [u8]) -> Read<'a, Step>
    ensures reads { Reads result (reading.plain_value field bits text.now) }
    ensures left { IfOk result (λ x. length x.1.now ≤ length text.now) }
{
    let len = value_len(text);
    match value_of(alloc, field, bits, &text[..len])? {
        Some(step) => ended(step, &[";"], &text[len..]),
        None => lost(alloc, Wanted::Value(field, bits), text),
    }
}

/// Reads a name, up to the double quote that ends it.
fn name<'a>(alloc: Global, text: &'a [u8]) -> Read<'a, Name>
    ensures reads { Reads result (reading.name text.now) }
    ensures left { IfOk result (λ x. length x.1.now ≤ length text.now) }
{
    let len = name_len(text);
    match name_of(&text[..len]) {
        Some(name) => Ok((Name::from_slice(alloc, name)?, &text[len..])),
        None => lost(alloc, Wanted::Name, text),
    }
}

/// Reads a name in double quotes, and `;`.
fn outport_name<'a>(alloc: Global, text: &'a [u8]) -> Read<'a, Step>
    ensures reads { Reads result (reading.outport_name text.now) }
    ensures left { IfOk result (λ x. length x.1.now ≤ length text.now) }
{
    let ((), rest) = token("\"", text)?;
    let (name, rest) = name(alloc, rest)?;
    ended(Step::SetOutport(name), &["\"", ";"], rest)
}

/// Reads what a part becomes, and `;`.
pub(crate) fn value<'a>(alloc: Global, field: Field, bits: Bits, text: &'a [u8]) -> Read<'a, Step>
    ensures reads { Reads result (reading.value field bits text.now) }
    ensures left { IfOk result (λ x. length x.1.now ≤ length text.now) }
{
    if takes_name(field, bits) && is_at(b"\"", text) {
        return outport_name(alloc, text);
    }
    plain_value(alloc, field, bits, text)
}
