ghost use Rattle.std.specs.Prelude.{◌≡◌, [], ◌∷◌, IfOk};
ghost use Rattle.net_rows.specs.Unit.{rule};

use act_core::{Action, Step};
use expr_core::Typed;
use net_rows::Rule;
use nv_base::OutOfMemory;
use sb_model::{Stage, one_step};
use std::alloc::Global;

// The rule of one action, which has no block.
#[inline]
pub(crate) fn one_step_rule(
    alloc: Global,
    stage: Stage,
    priority: u16,
    matching: Typed,
    step: Step,
) -> Result<Rule, OutOfMemory>
    ensures { IfOk result (λ r. r ≡ rule stage priority matching (Action.Step step ∷ [])) }
{
    Ok(Rule {
        stage,
        priority,
        matching,
        actions: one_step(alloc, step)?,
    })
}
