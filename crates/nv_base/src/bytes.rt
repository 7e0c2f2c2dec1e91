//! Numbers that are spelled byte by byte, the highest first, with a separator between.
ghost use Rattle.std.specs.Prelude.{◌≡◌, ◌==◌, ◌<◌, ◌≤◌, ◌^◌, IfSome, option_map};
ghost use Rattle.std.specs.List.{slice_split};
ghost use Rattle.nv_base.specs.Bytes.{pair_of, number_of_parts, around_first};
ghost use Rattle.nv_base.specs.inner.Bytes.{byte_of};

use crate::number::{decimal_below, digits_number};

/// How a part spells a byte.
#[derive(Clone, Copy)]
pub(crate) enum Spelling {
    /// By a decimal without leading zeros.
    Decimal,
    /// By two hexadecimal digits of either case.
    Pair,
}

/// The byte that a pair of hexadecimal digits of either case spells.
fn pair_of(part: &[u8]) -> Option<u64>
    ensures value { result ≡ pair_of part.now }
    ensures small { IfSome result (λ byte. byte < 256) }
{
    if part.len() == 2 {
        let byte = digits_number(part, 16)?;
        Some(byte as u64)
    } else {
        None
    }
}

/// The byte that the part spells.
fn byte_of(spelling: Spelling, part: &[u8]) -> Option<u64>
    ensures value { result ≡ byte_of spelling part.now }
    ensures small { IfSome result (λ byte. byte < 256) }
{
    match spelling {
        Spelling::Decimal => Some(decimal_below(part, 256)? as u64),
        Spelling::Pair => pair_of(part),
    }
}

/// The texts before and after the first separator, if there is one.
pub(crate) fn around_first(text: &[u8], separator: u8) -> Option<(&[u8], &[u8])>
    ensures { option_map (λ parts. (parts.0.now, parts.1.now)) result ≡ around_first separator text.now }
{
    let at = text.iter().position(|byte| *byte == separator)?;
    Some((&text[..at], &text[at + 1..]))
}

/// The number of so many bytes, at most 6, that the parts between separators spell.
pub(crate) fn number_of_parts(
    text: &[u8],
    separator: u8,
    spelling: Spelling,
    count: usize,
) -> Option<u64>
    requires some { 0 < count }
    requires few { count ≤ 6 }
    ensures value { result ≡ number_of_parts (byte_of spelling) count (slice_split (λ b. b == separator) text.now) }
    ensures small { IfSome result (λ n. n < 256 ^ count) }
{
    let mut value = 0;
    let mut rest = text;
    for _seen in 0..count - 1 {
        let (part, after) = around_first(rest, separator)?;
        let byte = byte_of(spelling, part)?;
        value = value * 256 + byte;
        rest = after;
    }
    if around_first(rest, separator).is_some() {
        return None;
    }
    let last = byte_of(spelling, rest)?;
    Some(value * 256 + last)
}
