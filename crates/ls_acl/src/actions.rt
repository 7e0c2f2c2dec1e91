//! What the rows of ACLs do to the packets that they take.
ghost use Rattle.std.specs.Prelude.{◌≡◌, [], ◌∷◌, IfOk};
ghost use Rattle.sb_model.specs.Make.{steps, goes_on, drops};
ghost use Rattle.net_rows.specs.Acls.{asks_to_track, asks_to_keep, passes, rejects, ending};
ghost use Rattle.ls_acl.specs.inner.Parts.{blocks};

use act_core::{Action, Step};
use expr_core::Bits;
use nb_records::Verdict;
use nv_base::{Field, Items, OutOfMemory};
use sb_model::{DatapathKind, in_decimal, one_step};
use std::alloc::Global;

/// The packet goes on.
pub(crate) fn goes_on(alloc: Global) -> Result<Items<Action>, OutOfMemory>
    ensures { IfOk result (λ actions. actions ≡ goes_on) }
{
    one_step(alloc, Step::Next)
}

/// The packet is dropped.
pub(crate) fn drops(alloc: Global) -> Result<Items<Action>, OutOfMemory>
    ensures { IfOk result (λ actions. actions ≡ drops) }
{
    one_step(alloc, Step::Drop)
}

/// The packet goes on after a step.
pub(crate) fn goes_on_after(alloc: Global, step: Step) -> Result<Items<Action>, OutOfMemory>
    ensures { IfOk result (λ actions. actions ≡ steps (step ∷ Step.Next ∷ [])) }
{
    Ok(Items::from_items(vec![in alloc; Action::Step(step), Action::Step(Step::Next)]?))
}

/// The packet is to be tracked.
pub(crate) fn asks_to_track() -> Step
    ensures { result ≡ asks_to_track }
{
    Step::Set(Field::Reg0, Bits::Bit(0), in_decimal(1))
}

// The packet's connection is to be kept.
fn asks_to_keep() -> Step
    ensures { result ≡ asks_to_keep }
{
    Step::Set(Field::Reg0, Bits::Bit(1), in_decimal(1))
}

/// The packet goes on, and its connection is to be kept where the switch tracks.
pub(crate) fn passes(alloc: Global, tracks: bool) -> Result<Items<Action>, OutOfMemory>
    ensures { IfOk result (λ actions. actions ≡ passes tracks) }
{
    if tracks {
        goes_on_after(alloc, asks_to_keep())
    } else {
        goes_on(alloc)
    }
}

// The packet is rejected: what answers it goes back by the port that it came in by.
fn rejects(alloc: Global) -> Result<Action, OutOfMemory>
    ensures { IfOk result (λ action. action ≡ rejects) }
{
    let block = vec![in alloc;
        Step::Copy(Field::Outport, Bits::Whole, Field::Inport),
        Step::Set(Field::FlagsLoopback, Bits::Whole, in_decimal(1)),
        Step::Jump {
            egress: true,
            table: DatapathKind::Switch.last_table(),
        },
    ]?;
    Ok(Action::Reject(Items::from_items(block)))
}

// What becomes of the packet that an ACL takes, in one action.
fn last_action(alloc: Global, verdict: Verdict) -> Result<Action, OutOfMemory>
    ensures { IfOk result (λ action. action ∷ [] ≡ ending verdict) }
{
    match verdict {
        Verdict::Reject => rejects(alloc),
        Verdict::Drop => Ok(Action::Step(Step::Drop)),
        Verdict::Allow | Verdict::AllowRelated | Verdict::AllowStateless => {
            Ok(Action::Step(Step::Next))
        }
    }
}

/// What becomes of the packet that an ACL takes.
pub(crate) fn ending(alloc: Global, verdict: Verdict) -> Result<Items<Action>, OutOfMemory>
    ensures { IfOk result (λ actions. actions ≡ ending verdict) }
{
    Ok(Items::from_items(vec![in alloc; last_action(alloc, verdict)?]?))
}

/// The packet's connection is blocked, and then the packet meets its end.
pub(crate) fn blocks(alloc: Global, verdict: Verdict) -> Result<Items<Action>, OutOfMemory>
    ensures { IfOk result (λ actions. actions ≡ blocks verdict) }
{
    let last = last_action(alloc, verdict)?;
    let commit = Action::Step(Step::CtCommit { blocked: true });
    Ok(Items::from_items(vec![in alloc; commit, last]?))
}
