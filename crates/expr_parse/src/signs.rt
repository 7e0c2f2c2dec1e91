//! Signs of one byte or two.
ghost use Rattle.std.specs.Prelude.{◌≡◌, ◌<◌, [], ◌∷◌, length, slice_index, option_map};
ghost use Rattle.expr_parse.specs.inner.Class.{class_of};
ghost use Rattle.expr_parse.specs.declared.class.Class.TheVariants.{Other};
ghost use Rattle.expr_parse.specs.Spelling.{sign_among, signs};
ghost use Rattle.expr_parse.specs.inner.Borrowed.{token_of, front_token};
ghost use Rattle.expr_parse.specs.Tokens.{first_token};

use crate::token::{FrontToken, Token};
use expr_core::Rel;

/// The sign of these two bytes.
fn pair(first: u8, second: u8) -> Option<Token<'static>>
    ensures { option_map token_of result ≡ sign_among signs (first ∷ second ∷ []) }
{
    match (first, second) {
        (b'.', b'.') => Some(Token::Dots),
        (b'&', b'&') => Some(Token::And),
        (b'|', b'|') => Some(Token::Or),
        (b'=', b'=') => Some(Token::Rel(Rel::Eq)),
        (b'!', b'=') => Some(Token::Rel(Rel::Ne)),
        (b'<', b'=') => Some(Token::Rel(Rel::Le)),
        (b'>', b'=') => Some(Token::Rel(Rel::Ge)),
        _ => None,
    }
}

/// The sign of this byte alone.
fn single(byte: u8) -> Option<Token<'static>>
    ensures { option_map token_of result ≡ sign_among signs (byte ∷ []) }
{
    match byte {
        b'(' => Some(Token::Open),
        b')' => Some(Token::Close),
        b'{' => Some(Token::OpenBrace),
        b'}' => Some(Token::CloseBrace),
        b'[' => Some(Token::OpenBracket),
        b']' => Some(Token::CloseBracket),
        b',' => Some(Token::Comma),
        b'/' => Some(Token::Slash),
        b'!' => Some(Token::Not),
        b'<' => Some(Token::Rel(Rel::Lt)),
        b'>' => Some(Token::Rel(Rel::Gt)),
        _ => None,
    }
}

/// The token of a text that begins with none of the bytes that names, constants, texts and sets begin with: the sign at
/// its front, of two bytes if there is one.
pub(crate) fn sign(text: &[u8]) -> Option<FrontToken<'_>>
    requires some { 0 < length text.now }
    requires first { class_of (slice_index text.now 0) ≡ Other }
    ensures { option_map front_token result ≡ first_token text.now }
{
    if text.len() > 1 {
        if let Some(token) = pair(text[0], text[1]) {
            return Some(FrontToken { token, len: 2 });
        }
    }
    let token = single(text[0])?;
    Some(FrontToken { token, len: 1 })
}
