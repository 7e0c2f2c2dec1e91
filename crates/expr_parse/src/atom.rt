ghost use Rattle.std.specs.Prelude.{◌≤◌, length, IfOk};
ghost use Rattle.expr_core.specs.Constant.{constant};
ghost use Rattle.expr_parse.specs.inner.Gives.{Reads, seen};
ghost use Rattle.expr_parse.specs.Grammar as grammar;

use crate::MatchFault;
use crate::right::right;
use crate::tail::{Read, front};
use crate::token::{Spelled, Token, TokenAt};
use expr_core::{Atom, Expr, Form, Part};
use std::alloc::Global;

/// A comparison of the part, or the part alone.
pub(crate) fn compared<'a>(
    alloc: Global,
    end: u32,
    part: Part,
    tokens: &'a [TokenAt<'a>],
) -> Read<'a, Expr>
    ensures reads { Reads result (grammar.compared end part (seen tokens.now)) }
    ensures left { IfOk result (λ x. length x.1.now ≤ length tokens.now) }
{
    match front(tokens) {
        Some((Token::Rel(rel), _, rest)) => {
            let (right, rest) = right(alloc, end, rest)?;
            Ok((Expr::atom(Atom::Compare(part, rel, right)), rest))
        }
        _ => Ok((Expr::atom(Atom::Bare(part)), tokens)),
    }
}

/// The atom `0` or `1`.
pub(crate) fn truth<'a>(offset: u32, number: Spelled, tokens: &'a [TokenAt<'a>]) -> Read<'a, Expr>
    ensures reads { Reads result (grammar.truth offset (constant number.form number.value) (seen tokens.now)) }
    ensures left { IfOk result (λ x. length x.1.now ≤ length tokens.now) }
{
    match (number.form, number.value) {
        (Form::Dec, 0) => Ok((Expr::atom(Atom::Truth(false)), tokens)),
        (Form::Dec, 1) => Ok((Expr::atom(Atom::Truth(true)), tokens)),
        _ => Err(MatchFault::Syntax(offset)),
    }
}
