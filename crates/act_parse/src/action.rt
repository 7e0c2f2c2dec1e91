//! Actions, with blocks.
ghost use Rattle.std.specs.Prelude.{◌≡◌, ◌≤◌, ◌<◌, length, IfOk};
ghost use Rattle.act_parse.specs.inner.Reading as reading;
ghost use Rattle.act_parse.specs.inner.Gives.{Reads};

use crate::keyword::block_of;
use crate::lexer::{after_word, is_at, token, tokens, word};
use crate::step::step;
use crate::stop::Read;
use crate::wanted::Wanted;
use act_core::{Action, Step};
use nv_base::Items;
use std::alloc::Global;

/// Reads a step of a block, and the space after it.
fn spaced_step<'a>(alloc: Global, text: &'a [u8]) -> Read<'a, Step>
    ensures reads { Reads result (reading.spaced_step text.now) }
    ensures left { IfOk result (λ x. length x.1.now < length text.now) }
{
    let (step, rest) = step(alloc, Wanted::Step, text)?;
    let ((), rest) = token(" ", rest)?;
    Ok((step, rest))
}

/// Reads the steps of a block: one or more, up to `}`.
fn all_steps<'a>(alloc: Global, text: &'a [u8]) -> Read<'a, Items<Step>>
    ensures reads { Reads result (reading.all_steps text.now) }
    ensures left { IfOk result (λ x. length x.1.now ≤ length text.now) }
{
    let (first, mut left) = spaced_step(alloc, text)?;
    let mut steps = Items::new(alloc);
    steps.push(first)?;
    while !is_at(b"}", left) {
        let (next, rest) = spaced_step(alloc, left)?;
        steps.push(next)?;
        left = rest;
    }
    Ok((steps, left))
}

/// Reads a block, after its name.
fn block<'a>(alloc: Global, text: &'a [u8]) -> Read<'a, Items<Step>>
    ensures reads { Reads result (reading.block text.now) }
    ensures left { IfOk result (λ x. length x.1.now ≤ length text.now) }
{
    let ((), rest) = tokens(&[" ", "{", " "], text)?;
    let (steps, rest) = all_steps(alloc, rest)?;
    let ((), rest) = tokens(&["}", ";"], rest)?;
    Ok((steps, rest))
}

/// Reads an action.
fn action<'a>(alloc: Global, text: &'a [u8]) -> Read<'a, Action>
    ensures reads { Reads result (reading.action text.now) }
    ensures left { IfOk result (λ x. length x.1.now ≤ length text.now) }
{
    match block_of(word(text)) {
        Some(kind) => {
            let (steps, rest) = block(alloc, after_word(text))?;
            Ok((kind.of(steps), rest))
        }
        None => {
            let (step, rest) = step(alloc, Wanted::Action, text)?;
            Ok((Action::Step(step), rest))
        }
    }
}

/// Reads the space between two actions, and the second.
fn another<'a>(alloc: Global, text: &'a [u8]) -> Read<'a, Action>
    ensures reads { Reads result (reading.another text.now) }
    ensures left { IfOk result (λ x. length x.1.now < length text.now) }
{
    let ((), rest) = token(" ", text)?;
    action(alloc, rest)
}

/// Reads actions up to the end of the text.
pub(crate) fn actions<'a>(alloc: Global, text: &'a [u8]) -> Read<'a, Items<Action>>
    ensures reads { Reads result (reading.reading text.now) }
{
    if text.is_empty() {
        return Ok((Items::new(alloc), text));
    }
    let (first, mut left) = action(alloc, text)?;
    let mut actions = Items::new(alloc);
    actions.push(first)?;
    while !left.is_empty() {
        let (next, rest) = another(alloc, left)?;
        actions.push(next)?;
        left = rest;
    }
    Ok((actions, left))
}
