ghost use Rattle.std.specs.Prelude.{◌≡◌, ◌<◌, ◌≤◌, [], ◌∷◌, length, option_map, IfSome, IfOk};
ghost use Rattle.expr_core.specs.Formula.Formula.{Not};
ghost use Rattle.expr_parse.specs.inner.Gives.{Reads, seen};
ghost use Rattle.expr_parse.specs.Grammar as grammar;
ghost use Rattle.expr_parse.specs.Grammar.Reading.{Read};

use crate::MatchFault;
use crate::atom::{compared, truth};
use crate::operator::Operator;
use crate::part::part;
use crate::tail::{Read, front, stuck};
use crate::token::{Token, TokenAt};
use expr_core::{Atom, Expr, Node, Tree};
use std::alloc::Global;

/// The closing parenthesis after a match.
fn closed<'a>(end: u32, inner: Expr, tokens: &'a [TokenAt<'a>]) -> Read<'a, Expr>
    ensures reads { Reads result (grammar.closed end inner (seen tokens.now)) }
    ensures left { IfOk result (λ x. length x.1.now ≤ length tokens.now) }
{
    match front(tokens) {
        Some((Token::Close, _, rest)) => Ok((inner, rest)),
        _ => Err(stuck(end, tokens)),
    }
}

/// The tokens after the operator, where it is the first.
fn after_operator<'a>(operator: Operator, tokens: &'a [TokenAt<'a>]) -> Option<&'a [TokenAt<'a>]>
    ensures rest { grammar.after_operator operator (seen tokens.now) ≡ option_map (λ rest. seen rest.now) result }
    ensures left { IfSome result (λ rest. length rest.now < length tokens.now) }
{
    match (operator, front(tokens)) {
        (Operator::And, Some((Token::And, _, rest))) => Some(rest),
        (Operator::Or, Some((Token::Or, _, rest))) => Some(rest),
        _ => None,
    }
}

/// The end of units that the operator joins.
fn joined<'a>(operator: Operator, units: Vec<Expr>, tokens: &'a [TokenAt<'a>]) -> Read<'a, Expr>
    ensures reads { Reads result (grammar.chain_end operator units.items (seen tokens.now)) }
    ensures left { IfOk result (λ x. length x.1.now ≤ length tokens.now) }
{
    match (operator, front(tokens)) {
        (Operator::And, Some((Token::Or, offset, _))) => Err(MatchFault::Mixed(offset)),
        (Operator::Or, Some((Token::And, offset, _))) => Err(MatchFault::Mixed(offset)),
        (Operator::And, _) => Ok((
            Tree {
                node: Node::And(units),
            },
            tokens,
        )),
        (Operator::Or, _) => Ok((
            Tree {
                node: Node::Or(units),
            },
            tokens,
        )),
    }
}

/// What `!` at this offset negates.
#[cycle(formula)]
fn negated<'a>(
    alloc: Global,
    end: u32,
    levels: u8,
    offset: u32,
    tokens: &'a [TokenAt<'a>],
) -> Read<'a, Expr>
    ensures reads { Reads result (grammar.and_then ((grammar.levels end levels).negated offset (seen tokens.now)) (λ f after. Read (Not f) after)) }
    ensures left { IfOk result (λ x. length x.1.now ≤ length tokens.now) }
{
    if levels == 0 {
        return Err(MatchFault::TooDeep(offset));
    }
    let (inner, rest) = operand(alloc, end, levels - 1, tokens)?;
    Ok((Expr::negation(alloc, inner)?, rest))
}

/// What the parenthesis at this offset encloses, and its end.
#[cycle(formula)]
fn enclosed<'a>(
    alloc: Global,
    end: u32,
    levels: u8,
    offset: u32,
    tokens: &'a [TokenAt<'a>],
) -> Read<'a, Expr>
    ensures reads { Reads result (grammar.and_then ((grammar.levels end levels).enclosed offset (seen tokens.now)) (grammar.closed end)) }
    ensures left { IfOk result (λ x. length x.1.now ≤ length tokens.now) }
{
    if levels == 0 {
        return Err(MatchFault::TooDeep(offset));
    }
    let (inner, rest) = whole(alloc, end, levels - 1, tokens)?;
    closed(end, inner, rest)
}

/// What `!` may negate.
#[cycle(formula)]
fn operand<'a>(alloc: Global, end: u32, levels: u8, tokens: &'a [TokenAt<'a>]) -> Read<'a, Expr>
    ensures reads { Reads result (grammar.operand end (grammar.levels end levels) (seen tokens.now)) }
    ensures left { IfOk result (λ x. length x.1.now ≤ length tokens.now) }
{
    match front(tokens) {
        Some((Token::Not, offset, rest)) => negated(alloc, end, levels, offset, rest),
        Some((Token::Open, offset, rest)) => enclosed(alloc, end, levels, offset, rest),
        Some((Token::Number(number), offset, rest)) => truth(offset, number, rest),
        Some((Token::Name(name), offset, rest)) => {
            let (part, rest) = part(alloc, end, offset, name, rest)?;
            Ok((Expr::atom(Atom::Bare(part)), rest))
        }
        _ => Err(stuck(end, tokens)),
    }
}

/// A unit: what operators join.
#[cycle(formula)]
fn unit<'a>(alloc: Global, end: u32, levels: u8, tokens: &'a [TokenAt<'a>]) -> Read<'a, Expr>
    ensures reads { Reads result (grammar.unit end (grammar.levels end levels) (seen tokens.now)) }
    ensures left { IfOk result (λ x. length x.1.now ≤ length tokens.now) }
{
    match front(tokens) {
        Some((Token::Name(name), offset, rest)) => {
            let (part, rest) = part(alloc, end, offset, name, rest)?;
            compared(alloc, end, part, rest)
        }
        _ => operand(alloc, end, levels, tokens),
    }
}

/// The units that the operator joins to the first, after the first operator.
#[cycle(formula)]
fn chain<'a>(
    alloc: Global,
    end: u32,
    levels: u8,
    operator: Operator,
    first: Expr,
    tokens: &'a [TokenAt<'a>],
) -> Read<'a, Expr>
    ensures reads { Reads result (grammar.and_then (grammar.unit end (grammar.levels end levels) (seen tokens.now))
        (λ f after. grammar.chain (grammar.unit end (grammar.levels end levels)) operator (length (seen tokens.now)) (first ∷ f ∷ []) after)) }
    ensures left { IfOk result (λ x. length x.1.now ≤ length tokens.now) }
{
    let mut units = Vec::new(alloc);
    units.push(first)?;
    let (second, mut left) = unit(alloc, end, levels, tokens)?;
    units.push(second)?;
    while let Some(rest) = after_operator(operator, left) {
        let (next, rest) = unit(alloc, end, levels, rest)?;
        units.push(next)?;
        left = rest;
    }
    joined(operator, units, left)
}

/// A match.
#[cycle(formula)]
pub(crate) fn whole<'a>(
    alloc: Global,
    end: u32,
    levels: u8,
    tokens: &'a [TokenAt<'a>],
) -> Read<'a, Expr>
    ensures reads { Reads result (grammar.whole end (grammar.levels end levels) (seen tokens.now)) }
    ensures left { IfOk result (λ x. length x.1.now ≤ length tokens.now) }
{
    let (first, left) = unit(alloc, end, levels, tokens)?;
    match front(left) {
        Some((Token::And, _, rest)) => chain(alloc, end, levels, Operator::And, first, rest),
        Some((Token::Or, _, rest)) => chain(alloc, end, levels, Operator::Or, first, rest),
        _ => Ok((first, left)),
    }
}
