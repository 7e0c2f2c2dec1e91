//! What the actions of a row do.
ghost use Rattle.std.specs.Prelude.{◌≡◌, IsTrue, true, false, not, [], ◌∷◌, Some, is_some, IfOk};
ghost use Rattle.expr_core.specs.Lookup.{Lookup};
ghost use Rattle.act_core.specs.WellFormed.{is_action, is_step, is_well_formed};
ghost use Rattle.sb_model.specs.Stage.{is_last, next_stage};
ghost use Rattle.tr_pipe.specs.Machine.{effect, run_actions};
ghost use Rattle.tr_pipe.specs.Runnable.{is_change, is_tracking, may_be_last, are_run};
ghost use Rattle.tr_pipe.specs.inner.Moving.{effect_of, in_flight, with_flight};

use crate::learn::{get_arp, put_arp};
use crate::moving::Moving;
use crate::nat::{balance_to, follow, hide, redirect, redirect_found, unhide, zone_at};
use crate::track::{commit, track};
use act_core::{Action, Step};
use ct_core::Zone;
use ct_state::Work;
use expr_core::Env;
use nv_base::{ObjId, OutOfMemory};
use sb_model::Stage;
use tr_stage::{Ending, change, end};

/// Does the actions of a row, one after the other, and answers how the step ends.
pub(crate) fn run_actions<E: Env>(
    env: &E,
    dp: ObjId,
    stage: Stage,
    actions: &[Action],
    moving: &mut Moving,
    work: &mut Work,
) -> Result<Ending, OutOfMemory>
    requires formed { IsTrue (is_well_formed actions.now) }
    requires run { IsTrue (are_run (E.lookup env.now) stage actions.now) }
    ensures end { IfOk result (λ ending. run_actions (E.lookup env.now) dp stage actions.now (in_flight moving.old work.old.state) ≡ with_flight ending (in_flight moving.new work.new.state)) }
    ensures back { work.new.back ≡ work.old.back }
{
    let mut rest = actions;
    while let Some((first, others)) = rest.split_first() {
        if others.is_empty() {
            return do_last(env, dp, stage, first, moving, work);
        }
        let Action::Step(step) = first else {
            unreachable!()
        };
        if let Some(ending) = do_step(env, dp, stage, step, moving, work)? {
            return Ok(ending);
        }
        rest = others;
    }
    unreachable!()
}

// Does an action that others may follow.
fn do_step<E: Env>(
    env: &E,
    dp: ObjId,
    stage: Stage,
    step: &Step,
    moving: &mut Moving,
    work: &mut Work,
) -> Result<Option<Ending>, OutOfMemory>
    requires formed { IsTrue (is_step step.now) }
    requires change { IsTrue (is_change (E.lookup env.now) step.now) }
    ensures effect { IfOk result (λ ended. effect (E.lookup env.now) dp stage step.now (in_flight moving.old work.old.state) ≡ effect_of ended (in_flight moving.new work.new.state)) }
    ensures back { work.new.back ≡ work.old.back }
{
    match step {
        Step::CtCommit { blocked } => commit(stage, *blocked, moving, work),
        Step::PutArp => {
            put_arp(&moving.packet, work)?;
            Ok(None)
        }
        Step::GetArp => {
            get_arp(&mut moving.packet, work);
            Ok(None)
        }
        _ => {
            change(env, step, &mut moving.packet);
            Ok(None)
        }
    }
}

// Does the last action of a row.
fn do_last<E: Env>(
    env: &E,
    dp: ObjId,
    stage: Stage,
    last: &Action,
    moving: &mut Moving,
    work: &mut Work,
) -> Result<Ending, OutOfMemory>
    requires formed { IsTrue (is_action last.now) }
    requires last { IsTrue (may_be_last (E.lookup env.now) stage last.now) }
    ensures end { IfOk result (λ ending. run_actions (E.lookup env.now) dp stage (last.now ∷ []) (in_flight moving.old work.old.state) ≡ with_flight ending (in_flight moving.new work.new.state)) }
    ensures back { work.new.back ≡ work.old.back }
{
    match last {
        Action::Step(step) => match do_tracking(dp, stage, step, moving, work)? {
            Some(ending) => Ok(ending),
            None => Ok(end(env, stage, last, &mut moving.packet)),
        },
        _ => Ok(end(env, stage, last, &mut moving.packet)),
    }
}

// Does an action that asks for a connection, after which the packet goes on. `None` exactly where the action is another; then nothing
// changes.
fn do_tracking(
    dp: ObjId,
    stage: Stage,
    step: &Step,
    moving: &mut Moving,
    work: &mut Work,
) -> Result<Option<Ending>, OutOfMemory>
    requires next { is_tracking step.now ≡ true → not (is_last stage) ≡ true }
    ensures asks { IfOk result (λ ended. is_some ended ≡ is_tracking step.now) }
    ensures effect { IfOk result (λ ended. (net : Lookup) → is_tracking step.now ≡ true → effect net dp stage step.now (in_flight moving.old work.old.state) ≡ effect_of ended (in_flight moving.new work.new.state)) }
    ensures other { IfOk result (λ ended. is_tracking step.now ≡ false → in_flight moving.new work.new.state ≡ in_flight moving.old work.old.state) }
    ensures back { work.new.back ≡ work.old.back }
{
    match step {
        Step::CtNext => {
            track(stage, moving, work);
            Ok(Some(Ending::On(next(stage))))
        }
        Step::CtLb => {
            follow(zone_at(dp, stage, &moving.packet), moving, work);
            Ok(Some(Ending::On(next(stage))))
        }
        Step::CtLbTo(targets) => {
            let zone = zone_at(dp, stage, &moving.packet);
            let ending = balance_to(next(stage), zone, targets.as_slice(), moving, work)?;
            Ok(Some(ending))
        }
        Step::CtSnat => {
            unhide(Zone::Snat(dp), moving, work);
            Ok(Some(Ending::On(next(stage))))
        }
        Step::CtSnatTo(external) => {
            let ending = hide(next(stage), Zone::Snat(dp), *external, moving, work)?;
            Ok(Some(ending))
        }
        Step::CtDnat => {
            redirect_found(stage.pipeline(), Zone::Dnat(dp), moving, work);
            Ok(Some(Ending::On(next(stage))))
        }
        Step::CtDnatTo(addr) => {
            let ending = redirect(next(stage), Zone::Dnat(dp), *addr, moving, work)?;
            Ok(Some(ending))
        }
        _ => Ok(None),
    }
}

// The stage after one that is not a datapath's last in its pipeline.
fn next(stage: Stage) -> Stage
    requires { not (is_last stage) ≡ true }
    ensures { next_stage stage ≡ Some result }
{
    match stage.next() {
        Some(next) => next,
        None => unreachable!(),
    }
}
