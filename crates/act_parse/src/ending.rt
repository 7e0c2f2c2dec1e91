//! Steps, each up to its end.
ghost use Rattle.std.specs.Prelude.{◌≤◌, length, map, IfOk};
ghost use Rattle.act_parse.specs.inner.Reading as reading;
ghost use Rattle.act_parse.specs.inner.Gives.{Reads, shown};

use crate::lexer::tokens;
use crate::stop::Read;
use act_core::Step;

/// Reads the tokens that end the step.
pub(crate) fn ended<'a>(step: Step, ends: &[&str], text: &'a [u8]) -> Read<'a, Step>
    ensures reads { Reads result (reading.ended step (map shown ends.now) text.now) }
    ensures left { IfOk result (λ x. length x.1.now ≤ length text.now) }
{
    let ((), rest) = tokens(ends, text)?;
    Ok((step, rest))
}
