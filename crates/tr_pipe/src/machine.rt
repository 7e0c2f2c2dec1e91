ghost use Rattle.std.specs.Prelude.{◌≡◌, ◌≢◌, ◌++◌, List, [], ◌∷◌, None, Some, IfOk, IsSome};
ghost use Rattle.sb_model.specs.Stage.{stage_at};
ghost use Rattle.sb_model.specs.declared.row.Row as rows_of;
ghost use Rattle.tr_stage.specs.Machine.{flows_of, kind_of, hit_of, sent};
ghost use Rattle.tr_pipe.specs.Machine.{run_pipeline};
ghost use Rattle.tr_pipe.specs.Runnable.{IsRunnable};
ghost use Rattle.tr_pipe.specs.inner.Moving.{end_of};
ghost use Rattle.tr_stage.specs.Ending.{with_packet};

use crate::act::run_actions;
use crate::moving::Moving;
use crate::watch::Watch;
use ct_state::Work;
use expr_core::Env;
use expr_ports::PortNames;
use nv_base::{ObjId, OutOfMemory};
use pkt_core::Packet;
use sb_model::{DatapathKind, Pipeline, Row, Stage};
use sb_rows::Rows;
use std::ops::ControlFlow;
use tr_stage::{Ending, Hit, Outcome};

// How many steps a packet may take in one pipeline.
const STEP_BUDGET: usize = 128;

/// Runs a packet through one pipeline of a datapath, from this table on: appends a hit to `hits` for each row that acted on it, in
/// order, and changes the state as the rows say, while `watch` is told of it. After `OutOfMemory` nothing is said of the hits and the state.
pub fn run_pipeline<E: PortNames, W: Watch<E>>(
    rows: &Rows,
    env: &E,
    dp: ObjId,
    pipeline: Pipeline,
    table: u8,
    packet: &Packet,
    work: &mut Work,
    hits: &mut Vec<Hit>,
    watch: &mut W,
) -> Result<Outcome, OutOfMemory>
    requires rows { IsRunnable (flows_of rows.now (E.lookup env.now) dp) }
    requires table { IsSome (stage_at (kind_of (flows_of rows.now (E.lookup env.now) dp)) pipeline table) }
    ensures hits { IfOk result (λ outcome. hits.new.items ≡ hits.old.items ++ (run_pipeline (flows_of rows.now (E.lookup env.now) dp) pipeline table packet.now work.old.state).hits) }
    ensures outcome { IfOk result (λ outcome. (run_pipeline (flows_of rows.now (E.lookup env.now) dp) pipeline table packet.now work.old.state).outcome ≡ Some outcome) }
    ensures state { IfOk result (λ outcome. (run_pipeline (flows_of rows.now (E.lookup env.now) dp) pipeline table packet.now work.old.state).state ≡ work.new.state) }
    ensures runs { (run_pipeline (flows_of rows.now (E.lookup env.now) dp) pipeline table packet.now work.old.state).outcome ≢ None }
    ensures back { work.new.back ≡ work.old.back }
{
    let Some(mut stage) = Stage::at(kind_of(env, dp), pipeline, table) else {
        unreachable!()
    };
    let mut moving = Moving {
        packet: *packet,
        look: None,
    };
    watch.begin(env, dp, pipeline, packet)?;
    let tables = rows.datapath(dp);
    let mut budget = STEP_BUDGET;
    while budget > 0 {
        budget -= 1;
        let Some(row) = tables.select(stage, &moving.packet, env) else {
            unreachable!()
        };
        hits.push(hit_of(dp, stage, row))?;
        let ending = run_actions(env, dp, stage, row.actions.as_slice(), &mut moving, work)?;
        watch.act(env, stage, row, &moving.packet, &moving.look, work)?;
        match after(ending, &moving.packet) {
            ControlFlow::Continue(next) => stage = next,
            ControlFlow::Break(outcome) => return Ok(outcome),
        }
    }
    unreachable!()
}

// What the datapath is.
fn kind_of<E: Env>(env: &E, dp: ObjId) -> DatapathKind
    ensures { (rows : List rows_of.Row) → result ≡ kind_of (flows_of rows (E.lookup env.now) dp) }
{
    if env.is_switch(dp) {
        DatapathKind::Switch
    } else {
        DatapathKind::Router
    }
}

fn hit_of(dp: ObjId, stage: Stage, row: &Row) -> Hit
    ensures { result ∷ [] ≡ hit_of dp stage (Some row.now) }
{
    Hit {
        dp,
        stage,
        priority: row.priority,
        hint: row.hint,
    }
}

// What becomes of a packet that goes out of a pipeline.
fn sent(pipeline: Pipeline, packet: &Packet) -> Outcome
    ensures { result ≡ sent pipeline packet.now }
{
    match pipeline {
        Pipeline::Ingress => Outcome::Leave(*packet, 0),
        Pipeline::Egress => Outcome::Deliver(*packet),
    }
}

// The stage at which a packet goes on after a step, or what becomes of it.
fn after(ending: Ending, packet: &Packet) -> ControlFlow<Outcome, Stage>
    ensures { with_packet ending packet.now ≡ end_of result packet.now }
{
    match ending {
        Ending::On(stage) => ControlFlow::Continue(stage),
        Ending::Sent(pipeline) => ControlFlow::Break(sent(pipeline, packet)),
        Ending::Left(table) => ControlFlow::Break(Outcome::Leave(*packet, table)),
        Ending::Made(table, answer) => ControlFlow::Break(Outcome::Made(*packet, table, answer)),
        Ending::Dropped(cause) => ControlFlow::Break(Outcome::Drop(cause)),
    }
}
