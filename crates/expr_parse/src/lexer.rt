//! The tokens of a text.
ghost use Rattle.std.specs.Prelude.{◌≡◌, ◌+◌, ◌++◌, ◌<◌, ◌≤◌, ◌^◌, ℕ, drop, length, map, option_map, IfOk};
ghost use Rattle.expr_parse.specs.inner.Borrowed.{front_token, token_at};
ghost use Rattle.expr_parse.specs.Token.{Tokens};
ghost use Rattle.expr_parse.specs.Tokens.{blanks, first_token, is_blank, tokens_of};

use crate::class::{Class, class_of};
use crate::constants::constant;
use crate::names::{address_set, group, name_or_mac};
use crate::quoted::quoted;
use crate::signs::sign;
use crate::token::{FrontToken, TokenAt};
use nv_base::OutOfMemory;
use std::alloc::Global;

/// Whether the byte is a space or a tab.
fn is_blank(byte: u8) -> bool
    ensures { result ≡ is_blank byte }
{
    matches!(byte, b' ' | b'\t')
}

/// How many blanks the text begins with.
fn blanks(text: &[u8]) -> usize
    ensures { result ≡ blanks text.now }
{
    text.iter().take_while(|byte| is_blank(**byte)).count()
}

/// The offset of the first byte from this offset on that is no blank, or of the end.
fn after_blanks(text: &[u8], offset: usize) -> usize
    requires short { length text.now < 2 ^ 32 }
    requires within { offset ≤ length text.now }
    ensures value { result ≡ offset + blanks (drop offset text.now) }
    ensures within { result ≤ length text.now }
{
    offset + blanks(&text[offset..])
}

/// The longest token at the front of the text, which its first byte tells the kind of.
fn first_token(text: &[u8]) -> Option<FrontToken<'_>>
    ensures { option_map front_token result ≡ first_token text.now }
{
    match class_of(*text.first()?) {
        Class::Letter => name_or_mac(text),
        Class::Digit => constant(text),
        Class::Quote => quoted(text),
        Class::Dollar => address_set(text),
        Class::At => group(text),
        Class::Other => sign(text),
    }
}

/// The first tokens of a text, at most so many, and the offset of the first byte after them that is no blank, or of the end.
/// As many as there are bytes are all: then the byte begins no token.
pub(crate) fn first_tokens(
    alloc: Global,
    text: &[u8],
    most: usize,
) -> Result<(Vec<TokenAt<'_>>, u32), OutOfMemory>
    requires { length text.now < 2 ^ 32 }
    ensures first { IfOk result (λ lexed. (others : Tokens × ℕ) × ((map token_at lexed.0.items ++ others.0, others.1) ≡ tokens_of text.now)) }
    ensures all { length text.now ≤ most → IfOk result (λ lexed. (map token_at lexed.0.items, lexed.1) ≡ tokens_of text.now) }
{
    let mut tokens = Vec::new(alloc);
    let mut at = after_blanks(text, 0);
    while let Some(found) = first_token(&text[at..]) {
        if tokens.len() == most {
            return Ok((tokens, at as u32));
        }
        tokens.push(TokenAt {
            offset: at as u32,
            token: found.token,
        })?;
        at = after_blanks(text, at + found.len);
    }
    Ok((tokens, at as u32))
}
