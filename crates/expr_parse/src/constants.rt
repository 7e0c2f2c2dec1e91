//! Constants.
ghost use Rattle.std.specs.Prelude.{◌≡◌, ◌<◌, length, slice_index, option_map};
ghost use Rattle.expr_parse.specs.inner.Class.{class_of};
ghost use Rattle.expr_parse.specs.declared.class.Class.TheVariants.{Digit};
ghost use Rattle.expr_parse.specs.inner.Borrowed.{front_token};
ghost use Rattle.expr_parse.specs.Tokens.{first_token};

use crate::token::{FrontToken, Spelled, Token};
use expr_const::longest;

/// The token of a text that begins with a digit: the longest constant.
pub(crate) fn constant(text: &[u8]) -> Option<FrontToken<'_>>
    requires some { 0 < length text.now }
    requires first { class_of (slice_index text.now 0) ≡ Digit }
    ensures { option_map front_token result ≡ first_token text.now }
{
    let (number, len) = longest(text)?;
    Some(FrontToken {
        token: Token::Number(Spelled::of(number)),
        len,
    })
}
