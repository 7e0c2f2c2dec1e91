ghost use Rattle.std.specs.Prelude.{◌≡◌, ◌∷◌, [], MatchOption};
ghost use Rattle.expr_parse.specs.inner.Gives.{seen, fault_at};

use crate::MatchFault;
use crate::token::{Token, TokenAt};

/// What was read, and the tokens after it.
pub(crate) type Read<'a, T> = Result<(T, &'a [TokenAt<'a>]), MatchFault>;

/// The first token, its offset, and the tokens after it.
pub(crate) fn front<'a>(tokens: &'a [TokenAt<'a>]) -> Option<(Token<'a>, u32, &'a [TokenAt<'a>])>
    ensures { MatchOption result (tokens.now ≡ []) (λ first. tokens.now ≡ record { offset = first.1; token = first.0 } ∷ first.2.now) }
{
    let (token, rest) = tokens.split_first()?;
    Some((token.token, token.offset, rest))
}

/// The fault at the first of these tokens, or at the offset where they end.
pub(crate) fn stuck(end: u32, tokens: &[TokenAt<'_>]) -> MatchFault
    ensures { result ≡ fault_at end (seen tokens.now) }
{
    match tokens.split_first() {
        None => MatchFault::Syntax(end),
        Some((token, _)) => MatchFault::Syntax(token.offset),
    }
}
