//! Constants where a number or an address is wanted.
ghost use Rattle.std.specs.Prelude.{◌≡◌, ◌≤◌, ◌<◌, length, IfOk, IfSome};
ghost use Rattle.act_parse.specs.inner.Token as lexical;
ghost use Rattle.act_parse.specs.inner.Reading as reading;
ghost use Rattle.act_parse.specs.inner.Gives.{Reads};

use crate::constant::constant;
use crate::lexer::{address_len, decimal_len};
use crate::stop::Read;
use crate::wanted::{Wanted, lost};
use expr_core::Form;
use nv_base::{Ip4, OutOfMemory};
use std::alloc::Global;

/// The decimal that is written so, if it is not below the first number and below the limit.
pub(crate) fn decimal_of(
    alloc: Global,
    first: u32,
    limit: u32,
    text: &[u8],
) -> Result<Option<u32>, OutOfMemory>
    ensures value { IfOk result (λ found. found ≡ lexical.decimal_of first limit text.now) }
    ensures small { IfOk result (λ found. IfSome found (λ n. n < limit)) }
{
    match constant(alloc, text)? {
        Some(number)
            if number.form() == Form::Dec
                && u128::from(first) <= number.value()
                && number.value() < u128::from(limit) => { Ok(Some(number.value() as u32)) }
        _ => Ok(None),
    }
}

/// Reads a decimal not below the first number and below the limit.
pub(crate) fn decimal<'a>(alloc: Global, first: u32, limit: u32, text: &'a [u8]) -> Read<'a, u32>
    ensures reads { Reads result (reading.decimal first limit text.now) }
    ensures small { IfOk result (λ x. x.0 < limit) }
    ensures left { IfOk result (λ x. length x.1.now ≤ length text.now) }
{
    let len = decimal_len(text);
    match decimal_of(alloc, first, limit, &text[..len])? {
        Some(number) => Ok((number, &text[len..])),
        None => lost(alloc, Wanted::Decimal { first, limit }, text),
    }
}

/// The address that is written so.
pub(crate) fn address_of(alloc: Global, text: &[u8]) -> Result<Option<Ip4>, OutOfMemory>
    ensures { IfOk result (λ found. found ≡ lexical.address_of text.now) }
{
    match constant(alloc, text)? {
        Some(addr) if addr.form() == Form::Ip4 && addr.value() < 1 << 32 => Ok(Some(Ip4(
            addr.value() as u32,
        ))),
        _ => Ok(None),
    }
}

/// Reads an address.
pub(crate) fn ip4<'a>(alloc: Global, text: &'a [u8]) -> Read<'a, Ip4>
    ensures reads { Reads result (reading.ip4 text.now) }
    ensures left { IfOk result (λ x. length x.1.now ≤ length text.now) }
{
    let len = address_len(text);
    match address_of(alloc, &text[..len])? {
        Some(addr) => Ok((addr, &text[len..])),
        None => lost(alloc, Wanted::Address, text),
    }
}
