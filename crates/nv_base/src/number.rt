//! Numbers as text: decimal, or hexadecimal after `0x`.
ghost use Rattle.std.specs.Prelude.{◌≡◌, ◌++◌, ◌≤◌, ◌-◌, ◌<◌, false, ok_or, decimal, drop, IfSome, OnOk, OnErr};
ghost use Rattle.std.specs.Fmt.{digits, digit_glyph};
ghost use Rattle.nv_base.specs.Number.{digits_number, has_no_leading_zero, decimal_of, below, hexadecimal_of, number_of, hexadecimal};
ghost use Rattle.nv_base.specs.Text.{bad_text};

use crate::{BadText, OutOfMemory};
use itoa::Buffer;

/// The number that digits of this base, of either case, spell, if it is below 2^128.
pub(crate) fn digits_number(text: &[u8], radix: u32) -> Option<u128>
    requires low { 2 ≤ radix }
    requires high { radix ≤ 36 }
    ensures { result ≡ digits_number radix text.now }
{
    let mut value: u128 = 0;
    for byte in text {
        let digit = char::from(*byte).to_digit(radix)?;
        value = value
            .checked_mul(u128::from(radix))?
            .checked_add(u128::from(digit))?;
    }
    Some(value)
}

/// Whether the text is not empty, and begins with `0` only if that is all.
fn has_no_leading_zero(text: &[u8]) -> bool
    ensures { result ≡ has_no_leading_zero text.now }
{
    text.len() == 1 || (1 < text.len() && text[0] != b'0')
}

/// The number of a decimal without leading zeros, if it is below 2^128.
fn decimal_of(text: &[u8]) -> Option<u128>
    ensures { result ≡ decimal_of text.now }
{
    if has_no_leading_zero(text) {
        digits_number(text, 10)
    } else {
        None
    }
}

/// The number of a decimal without leading zeros, if it is below the limit.
pub(crate) fn decimal_below(text: &[u8], limit: u128) -> Option<u128>
    ensures value { result ≡ below limit (decimal_of text.now) }
    ensures small { IfSome result (λ n. n < limit) }
{
    let number = decimal_of(text)?;
    if number < limit { Some(number) } else { None }
}

/// The number of 1 to 32 hexadecimal digits of either case.
fn hexadecimal_of(text: &[u8]) -> Option<u128>
    ensures { result ≡ hexadecimal_of text.now }
{
    if !text.is_empty() && text.len() <= 32 {
        digits_number(text, 16)
    } else {
        None
    }
}

/// The number that the text spells, in either way.
fn number_of(text: &[u8]) -> Option<u128>
    ensures { result ≡ number_of text.now }
{
    if text.starts_with(b"0x") {
        hexadecimal_of(&text[2..])
    } else {
        decimal_of(text)
    }
}

/// Reads a number: a decimal without leading zeros and below 2^128, or `0x` and 1 to 32 hexadecimal digits of either case
/// (after the constants of ovn-sb(5), 'Logical_Flow TABLE', match). `BadText` exactly where the text is none.
pub fn read_number(text: &[u8]) -> Result<u128, BadText>
    ensures { result ≡ ok_or (number_of text.now) bad_text }
{
    number_of(text).ok_or(BadText)
}

/// Appends the number in decimal. After `OutOfMemory` the bytes are as before.
pub fn put_dec(out: &mut Vec<u8>, value: u128) -> Result<(), OutOfMemory>
    ensures ok { OnOk result (out.new.items ≡ out.old.items ++ decimal value) }
    ensures err { OnErr result (out.new.items ≡ out.old.items) }
{
    let mut buffer = Buffer::new();
    out.extend_from_slice(buffer.format(value).as_bytes())?;
    Ok(())
}

/// The lower case hexadecimal digit of a number below 16.
pub(crate) fn hex_digit(digit: u8) -> u8
    requires { digit < 16 }
    ensures { result ≡ digit_glyph false digit }
{
    b"0123456789abcdef"[usize::from(digit)]
}

/// Writes the hexadecimal digits at the end of the text, and returns where they begin.
fn write_hexadecimal(text: &mut [u8; 34], value: u128) -> usize
    ensures begins { 2 ≤ result }
    ensures within { result ≤ 34 }
    ensures written { drop result text.new ≡ digits 16 false value }
{
    let mut at = 34;
    let mut rest = value;
    while rest > 15 {
        at -= 1;
        text[at] = hex_digit((rest % 16) as u8);
        rest /= 16;
    }
    at -= 1;
    text[at] = hex_digit(rest as u8);
    at
}

/// Appends the number in hexadecimal, `0x` before it. After `OutOfMemory` the bytes are as before.
pub fn put_hex(out: &mut Vec<u8>, value: u128) -> Result<(), OutOfMemory>
    ensures ok { OnOk result (out.new.items ≡ out.old.items ++ hexadecimal value) }
    ensures err { OnErr result (out.new.items ≡ out.old.items) }
{
    let mut text = [0; 34];
    let start = write_hexadecimal(&mut text, value);
    text[start - 1] = b'x';
    text[start - 2] = b'0';
    out.extend_from_slice(&text[start - 2..])?;
    Ok(())
}
