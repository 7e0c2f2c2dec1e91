ghost use Rattle.std.specs.Prelude.{◌≤◌, [], ◌∷◌, length, IfOk};
ghost use Rattle.expr_core.specs.Constant.{constant};
ghost use Rattle.expr_parse.specs.inner.Gives.{Reads, seen};
ghost use Rattle.expr_parse.specs.Grammar as grammar;

use crate::tail::{Read, front, stuck};
use crate::token::{Spelled, Token, TokenAt};
use expr_core::{Item, Right};
use nv_base::{Items, Name};
use std::alloc::Global;

/// A mask or the length of a prefix.
fn mask<'a>(end: u32, number: Spelled, tokens: &'a [TokenAt<'a>]) -> Read<'a, Item>
    ensures reads { Reads result (grammar.mask end (constant number.form number.value) (seen tokens.now)) }
    ensures left { IfOk result (λ x. length x.1.now ≤ length tokens.now) }
{
    match front(tokens) {
        Some((Token::Number(mask), _, rest)) => Ok((
            Item::Masked(number.constant(), mask.constant()),
            rest,
        )),
        _ => Err(stuck(end, tokens)),
    }
}

/// A number, and what may follow it in an item.
fn number<'a>(end: u32, number: Spelled, tokens: &'a [TokenAt<'a>]) -> Read<'a, Item>
    ensures reads { Reads result (grammar.number end (constant number.form number.value) (seen tokens.now)) }
    ensures left { IfOk result (λ x. length x.1.now ≤ length tokens.now) }
{
    match front(tokens) {
        Some((Token::Slash, _, rest)) => mask(end, number, rest),
        _ => Ok((Item::One(number.constant()), tokens)),
    }
}

/// An item.
fn item<'a>(alloc: Global, end: u32, tokens: &'a [TokenAt<'a>]) -> Read<'a, Item>
    ensures reads { Reads result (grammar.item end (seen tokens.now)) }
    ensures left { IfOk result (λ x. length x.1.now ≤ length tokens.now) }
{
    match front(tokens) {
        Some((Token::Number(constant), _, rest)) => number(end, constant, rest),
        Some((Token::Text(name), _, rest)) => Ok((
            Item::Text(Name::from_slice(alloc, name)?),
            rest,
        )),
        Some((Token::AddrSet(name), _, rest)) => Ok((
            Item::AddrSet(Name::from_slice(alloc, name)?),
            rest,
        )),
        Some((Token::Group(name), _, rest)) => Ok((
            Item::Group(Name::from_slice(alloc, name)?),
            rest,
        )),
        _ => Err(stuck(end, tokens)),
    }
}

/// The end of a set.
fn closed<'a>(end: u32, items: Items<Item>, tokens: &'a [TokenAt<'a>]) -> Read<'a, Right>
    ensures reads { Reads result (grammar.items end 0 items (seen tokens.now)) }
    ensures left { IfOk result (λ x. length x.1.now ≤ length tokens.now) }
{
    match front(tokens) {
        Some((Token::CloseBrace, _, rest)) => Ok((Right::Set(items), rest)),
        _ => Err(stuck(end, tokens)),
    }
}

/// A set, after its first brace.
fn set<'a>(alloc: Global, end: u32, tokens: &'a [TokenAt<'a>]) -> Read<'a, Right>
    ensures reads { Reads result (grammar.and_then (grammar.item end (seen tokens.now))
        (λ i after. grammar.items end (length (seen tokens.now)) (i ∷ []) after)) }
    ensures left { IfOk result (λ x. length x.1.now ≤ length tokens.now) }
{
    let mut items = Items::new(alloc);
    let (first, mut left) = item(alloc, end, tokens)?;
    items.push(first)?;
    while let Some((Token::Comma, _, rest)) = front(left) {
        let (next, rest) = item(alloc, end, rest)?;
        items.push(next)?;
        left = rest;
    }
    closed(end, items, left)
}

/// The right side of a comparison.
pub(crate) fn right<'a>(alloc: Global, end: u32, tokens: &'a [TokenAt<'a>]) -> Read<'a, Right>
    ensures reads { Reads result (grammar.right end (seen tokens.now)) }
    ensures left { IfOk result (λ x. length x.1.now ≤ length tokens.now) }
{
    match front(tokens) {
        Some((Token::OpenBrace, _, rest)) => set(alloc, end, rest),
        _ => {
            let (item, rest) = item(alloc, end, tokens)?;
            Ok((Right::Item(item), rest))
        }
    }
}
