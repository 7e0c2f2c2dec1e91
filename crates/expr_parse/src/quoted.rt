//! Texts in double quotes.
ghost use Rattle.std.specs.Prelude.{◌≡◌, ◌==◌, ◌<◌, not, length, slice_index, option_map};
ghost use Rattle.std.specs.List.{prefix_len};
ghost use Rattle.expr_parse.specs.inner.Class.{class_of};
ghost use Rattle.expr_parse.specs.declared.class.Class.TheVariants.{Quote};
ghost use Rattle.nv_base.specs.Name.{is_quotable};
ghost use Rattle.expr_parse.specs.inner.Borrowed.{front_token};
ghost use Rattle.expr_parse.specs.Tokens.{first_token};

use crate::token::{FrontToken, Token};
use nv_base::is_quotable;

/// How many bytes there are before the first double quote, or in all the text.
fn before_quote(text: &[u8]) -> usize
    ensures { result ≡ prefix_len (λ b. not (b == 34)) text.now }
{
    text.iter().take_while(|byte| **byte != b'"').count()
}

/// The token of a text that begins with a double quote.
pub(crate) fn quoted(text: &[u8]) -> Option<FrontToken<'_>>
    requires some { 0 < length text.now }
    requires first { class_of (slice_index text.now 0) ≡ Quote }
    ensures { option_map front_token result ≡ first_token text.now }
{
    let rest = &text[1..];
    let end = before_quote(rest);
    if end < rest.len() && is_quotable(&rest[..end]) {
        Some(FrontToken {
            token: Token::Text(&rest[..end]),
            len: end + 2,
        })
    } else {
        None
    }
}
