//! Names, alone or after `$` or `@`.
ghost use Rattle.std.specs.Prelude.{◌≡◌, ◌<◌, length, slice_index, option_map};
ghost use Rattle.std.specs.List.{prefix_len};
ghost use Rattle.expr_parse.specs.inner.Class.{class_of};
ghost use Rattle.expr_parse.specs.declared.class.Class.TheVariants.{Letter, Dollar, At};
ghost use Rattle.expr_parse.specs.Spelling.{is_in_name};
ghost use Rattle.expr_parse.specs.inner.Fronts.{front_name};
ghost use Rattle.expr_parse.specs.inner.Borrowed.{front_token};
ghost use Rattle.expr_parse.specs.Tokens.{first_token};

use crate::class::begins_name;
use crate::token::{FrontToken, Spelled, Token};
use expr_const::{MAC_LEN, mac_front};

/// Whether this byte may be in a name.
fn is_in_name(byte: u8) -> bool
    ensures { result ≡ is_in_name byte }
{
    begins_name(byte) || matches!(byte, b'0'..=b'9' | b'.')
}

/// How many bytes that may be in a name the text begins with.
fn name_run(text: &[u8]) -> usize
    ensures { result ≡ prefix_len is_in_name text.now }
{
    text.iter().take_while(|byte| is_in_name(**byte)).count()
}

/// The longest name at the front of the text.
fn front_name(text: &[u8]) -> Option<&[u8]>
    ensures { option_map (λ name. name.now) result ≡ front_name text.now }
{
    if !text.is_empty() && begins_name(text[0]) {
        Some(&text[..name_run(text)])
    } else {
        None
    }
}

/// The token of a text that begins as a name does: a name, or a MAC that is longer.
pub(crate) fn name_or_mac(text: &[u8]) -> Option<FrontToken<'_>>
    requires some { 0 < length text.now }
    requires first { class_of (slice_index text.now 0) ≡ Letter }
    ensures { option_map front_token result ≡ first_token text.now }
{
    let name = front_name(text)?;
    if name.len() < MAC_LEN {
        if let Some(mac) = mac_front(text) {
            return Some(FrontToken {
                token: Token::Number(Spelled::of(mac)),
                len: MAC_LEN,
            });
        }
    }
    Some(FrontToken {
        token: Token::Name(name),
        len: name.len(),
    })
}

/// The token of a text that begins with `$`.
pub(crate) fn address_set(text: &[u8]) -> Option<FrontToken<'_>>
    requires some { 0 < length text.now }
    requires first { class_of (slice_index text.now 0) ≡ Dollar }
    ensures { option_map front_token result ≡ first_token text.now }
{
    let name = front_name(&text[1..])?;
    Some(FrontToken {
        token: Token::AddrSet(name),
        len: name.len() + 1,
    })
}

/// The token of a text that begins with `@`.
pub(crate) fn group(text: &[u8]) -> Option<FrontToken<'_>>
    requires some { 0 < length text.now }
    requires first { class_of (slice_index text.now 0) ≡ At }
    ensures { option_map front_token result ≡ first_token text.now }
{
    let name = front_name(&text[1..])?;
    Some(FrontToken {
        token: Token::Group(name),
        len: name.len() + 1,
    })
}
