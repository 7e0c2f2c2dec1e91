ghost use Rattle.std.specs.Prelude.{◌≤◌, length, IfOk};
ghost use Rattle.expr_parse.specs.inner.Gives.{Reads, seen};
ghost use Rattle.expr_parse.specs.Grammar as grammar;

use crate::tail::{Read, front, stuck};
use crate::token::{Token, TokenAt};
use expr_core::{Bits, Form, Part};
use nv_base::Name;
use std::alloc::Global;

/// The number of a bit.
fn bit_number<'a>(end: u32, tokens: &'a [TokenAt<'a>]) -> Read<'a, u8>
    ensures reads { Reads result (grammar.bit_number end (seen tokens.now)) }
    ensures left { IfOk result (λ x. length x.1.now ≤ length tokens.now) }
{
    if let Some((Token::Number(number), _, rest)) = front(tokens) {
        if number.form == Form::Dec && number.value <= 255 {
            return Ok((number.value as u8, rest));
        }
    }
    Err(stuck(end, tokens))
}

/// The end of a range of bits, after its last number.
fn last_bit<'a>(end: u32, first: u8, last: u8, tokens: &'a [TokenAt<'a>]) -> Read<'a, Bits>
    ensures reads { Reads result (grammar.last_bit end first last (seen tokens.now)) }
    ensures left { IfOk result (λ x. length x.1.now ≤ length tokens.now) }
{
    match front(tokens) {
        Some((Token::CloseBracket, _, rest)) => Ok((Bits::Range(first, last), rest)),
        _ => Err(stuck(end, tokens)),
    }
}

/// What is written after the first number of bits.
fn first_bit<'a>(end: u32, first: u8, tokens: &'a [TokenAt<'a>]) -> Read<'a, Bits>
    ensures reads { Reads result (grammar.first_bit end first (seen tokens.now)) }
    ensures left { IfOk result (λ x. length x.1.now ≤ length tokens.now) }
{
    match front(tokens) {
        Some((Token::CloseBracket, _, rest)) => Ok((Bits::Bit(first), rest)),
        Some((Token::Dots, _, rest)) => {
            let (last, rest) = bit_number(end, rest)?;
            last_bit(end, first, last, rest)
        }
        _ => Err(stuck(end, tokens)),
    }
}

/// Which bits, in brackets; all of them where there are no brackets.
fn bits<'a>(end: u32, tokens: &'a [TokenAt<'a>]) -> Read<'a, Bits>
    ensures reads { Reads result (grammar.bits end (seen tokens.now)) }
    ensures left { IfOk result (λ x. length x.1.now ≤ length tokens.now) }
{
    match front(tokens) {
        Some((Token::OpenBracket, _, rest)) => {
            let (first, rest) = bit_number(end, rest)?;
            first_bit(end, first, rest)
        }
        _ => Ok((Bits::Whole, tokens)),
    }
}

/// A part, whose name is at this offset, before these tokens.
pub(crate) fn part<'a>(
    alloc: Global,
    end: u32,
    offset: u32,
    name: &[u8],
    tokens: &'a [TokenAt<'a>],
) -> Read<'a, Part>
    ensures reads { Reads result (grammar.part end offset name.now (seen tokens.now)) }
    ensures left { IfOk result (λ x. length x.1.now ≤ length tokens.now) }
{
    let (bits, rest) = bits(end, tokens)?;
    let name = Name::from_slice(alloc, name)?;
    Ok((Part { name, bits, offset }, rest))
}
