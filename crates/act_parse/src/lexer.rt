//! Signs, words and names in double quotes.
ghost use Rattle.std.specs.Prelude.{◌≡◌, ◌≤◌, ◌+◌, true, false, length, map, drop, option_map, MatchOption, IfOk, IfSome};
ghost use Rattle.std.specs.List.{prefix_len};
ghost use Rattle.act_parse.specs.inner.Token as lexical;
ghost use Rattle.act_parse.specs.inner.Reading as reading;
ghost use Rattle.act_parse.specs.inner.Gives.{Reads, shown};

use crate::stop::{Read, stuck};
use nv_base::is_quotable;

/// Whether a word may begin with this byte: a letter or `_`.
fn begins_word(byte: u8) -> bool
    ensures { result ≡ lexical.begins_word byte }
{
    matches!(byte, b'a'..=b'z' | b'A'..=b'Z' | b'_')
}

/// Whether this byte may be in a word.
fn is_in_word(byte: u8) -> bool
    ensures { result ≡ lexical.is_in_word byte }
{
    begins_word(byte) || matches!(byte, b'0'..=b'9' | b'.')
}

/// How many bytes that may be in a word the text begins with.
fn word_len(text: &[u8]) -> usize
    ensures count { result ≡ prefix_len lexical.is_in_word text.now }
    ensures within { result ≤ length text.now }
{
    text.iter().take_while(|byte| is_in_word(**byte)).count()
}

/// The word that the text begins with.
pub fn word(text: &[u8]) -> &[u8]
    ensures { result.now ≡ lexical.word text.now }
{
    &text[..word_len(text)]
}

/// What follows the word that the text begins with.
pub fn after_word(text: &[u8]) -> &[u8]
    ensures after { result.now ≡ lexical.after_word text.now }
    ensures left { length result.now ≤ length text.now }
{
    &text[word_len(text)..]
}

/// Whether this byte is a decimal digit.
fn is_in_decimal(byte: u8) -> bool
    ensures { result ≡ lexical.is_in_decimal byte }
{
    matches!(byte, b'0'..=b'9')
}

/// How many decimal digits the text begins with.
pub(crate) fn decimal_len(text: &[u8]) -> usize
    ensures count { result ≡ prefix_len lexical.is_in_decimal text.now }
    ensures within { result ≤ length text.now }
{
    text.iter().take_while(|byte| is_in_decimal(**byte)).count()
}

/// Whether this byte may be in an address: a digit or `.`.
fn is_in_address(byte: u8) -> bool
    ensures { result ≡ lexical.is_in_address byte }
{
    is_in_decimal(byte) || byte == b'.'
}

/// How many bytes that may be in an address the text begins with.
pub(crate) fn address_len(text: &[u8]) -> usize
    ensures count { result ≡ prefix_len lexical.is_in_address text.now }
    ensures within { result ≤ length text.now }
{
    text.iter().take_while(|byte| is_in_address(**byte)).count()
}

/// Whether this byte may be in a constant or in the name of a field.
fn is_in_value(byte: u8) -> bool
    ensures { result ≡ lexical.is_in_value byte }
{
    is_in_word(byte) || byte == b':'
}

/// How many bytes that may be in a constant or in the name of a field the text begins with.
pub(crate) fn value_len(text: &[u8]) -> usize
    ensures count { result ≡ prefix_len lexical.is_in_value text.now }
    ensures within { result ≤ length text.now }
{
    text.iter().take_while(|byte| is_in_value(**byte)).count()
}

/// How many bytes are before the double quote that ends a name, or in all the text.
pub(crate) fn name_len(text: &[u8]) -> usize
    ensures count { result ≡ prefix_len lexical.is_in_name text.now }
    ensures within { result ≤ length text.now }
{
    text.iter().take_while(|byte| **byte != b'"').count()
}

/// The name that may be in double quotes.
pub(crate) fn name_of(text: &[u8]) -> Option<&[u8]>
    ensures { option_map shown result ≡ lexical.name_of text.now }
{
    if is_quotable(text) { Some(text) } else { None }
}

/// What follows these bytes, if the text begins with them.
pub(crate) fn after<'a>(token: &str, text: &'a [u8]) -> Option<&'a [u8]>
    ensures rest { MatchOption result (lexical.is_at token.now text.now ≡ false) (λ rest. rest.now ≡ drop (length token.now) text.now) }
    ensures at { IfSome result (λ rest. lexical.is_at token.now text.now ≡ true) }
    ensures left { IfSome result (λ rest. length rest.now + length token.now ≡ length text.now) }
{
    text.strip_prefix(token.as_bytes())
}

/// Whether the text begins with these bytes.
pub(crate) fn is_at(front: &[u8], text: &[u8]) -> bool
    ensures { result ≡ lexical.is_at front.now text.now }
{
    text.starts_with(front)
}

/// Reads these bytes.
pub(crate) fn token<'a>(token: &str, text: &'a [u8]) -> Read<'a, ()>
    ensures reads { Reads result (reading.token token.now text.now) }
    ensures left { IfOk result (λ x. length x.1.now + length token.now ≡ length text.now) }
{
    let mut left = text;
    for byte in token.as_bytes() {
        match left.split_first() {
            Some((first, rest)) => {
                if byte != first {
                    return Err(stuck(left));
                }
                left = rest;
            }
            None => return Err(stuck(left)),
        }
    }
    Ok(((), left))
}

/// Reads tokens, one after the other.
pub(crate) fn tokens<'a>(tokens: &[&str], text: &'a [u8]) -> Read<'a, ()>
    ensures reads { Reads result (reading.tokens (map shown tokens.now) text.now) }
    ensures left { IfOk result (λ x. length x.1.now ≤ length text.now) }
{
    let mut left = text;
    for next in tokens {
        let ((), rest) = token(next, left)?;
        left = rest;
    }
    Ok(((), left))
}
