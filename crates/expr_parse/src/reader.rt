ghost use Rattle.std.specs.Prelude.{◌≡◌, ◌<◌, ◌^◌, true, false, [], length, IfOk, IfErr, MatchOption};
ghost use Rattle.expr_parse.specs.inner.Gives.{seen};
ghost use Rattle.expr_parse.specs.Faults.{fault_offset};
ghost use Rattle.expr_parse.specs.Grammar as grammar;
ghost use Rattle.expr_parse.specs.Grammar.Reading.{Read, Fails};

use crate::MatchFault;
use crate::formula::whole;
use crate::lexer::first_tokens;
use crate::tail::stuck;
use crate::token::TokenAt;
use expr_core::Expr;
use std::alloc::Global;

/// How many levels may be open at once.
const LEVEL_LIMIT: u8 = 64;

/// A text of more bytes than this is long: its first tokens are read before the others are made.
const LONG_TEXT: usize = 65536;

/// How many tokens are the first of a long text.
const FIRST_TOKENS: usize = 4096;

/// The match that these tokens are, which end at this offset of a text of this length.
fn match_of(alloc: Global, tokens: &[TokenAt<'_>], end: u32, len: usize) -> Result<Expr, MatchFault>
    ensures tree { IfOk result (λ e. grammar.match_of len (seen tokens.now, end) ≡ Read e []) }
    ensures fault { IfErr result (λ f. grammar.is_memory f ≡ false → grammar.match_of len (seen tokens.now, end) ≡ Fails f) }
{
    let (tree, rest) = whole(alloc, end, LEVEL_LIMIT, tokens)?;
    if rest.is_empty() && end as usize == len {
        Ok(tree)
    } else {
        Err(stuck(end, rest))
    }
}

/// Whether the fault is at an offset before this one.
fn is_before(fault: MatchFault, end: u32) -> bool
    ensures { result ≡ true → fault_offset fault < end }
{
    match fault {
        MatchFault::Syntax(offset) | MatchFault::Mixed(offset) | MatchFault::TooDeep(offset) => {
            offset < end
        }
        MatchFault::Memory => false,
    }
}

/// The first fault, where it is at one of the first tokens of the text: no tokens after them change it.
fn early_fault(alloc: Global, text: &[u8]) -> Option<MatchFault>
    requires { length text.now < 2 ^ 32 }
    ensures { MatchOption result (Unit {0}) (λ f. grammar.is_memory f ≡ false → grammar.reading text.now ≡ Fails f) }
{
    let Ok((tokens, end)) = first_tokens(alloc, text, FIRST_TOKENS) else {
        return None;
    };
    let Err(fault) = match_of(alloc, &tokens, end, text.len()) else {
        return None;
    };
    if is_before(fault, end) {
        Some(fault)
    } else {
        None
    }
}

/// Reads a match. Every fault is the first from the left; after `Memory` nothing is said of the text.
pub fn parse_match(alloc: Global, text: &[u8]) -> Result<Expr, MatchFault>
    requires { length text.now < 2 ^ 32 }
    ensures tree { IfOk result (λ e. grammar.reading text.now ≡ Read e []) }
    ensures fault { IfErr result (λ f. grammar.is_memory f ≡ false → grammar.reading text.now ≡ Fails f) }
{
    if text.len() > LONG_TEXT {
        if let Some(fault) = early_fault(alloc, text) {
            return Err(fault);
        }
    }
    let (tokens, end) = first_tokens(alloc, text, text.len())?;
    match_of(alloc, &tokens, end, text.len())
}
