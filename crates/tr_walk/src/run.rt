//! The run of a packet through a pipeline, as a part of a walk.
ghost use Rattle.std.specs.Prelude.{◌≡◌, ◌++◌, map, IfOk, OnOk, IsSome};
ghost use Rattle.sb_model.specs.Stage.{stage_at};
ghost use Rattle.sb_model.specs.declared.stage.Pipeline.TheVariants as pipelines;
ghost use Rattle.net_meaning.specs.Places.{datapath_at};
ghost use Rattle.tr_pipe.specs.Machine.{run_pipeline};
ghost use Rattle.ls_laws.specs.Steps.{flows_at};
ghost use Rattle.tr_walk.specs.declared.event.Event.TheVariants as variants;
ghost use Rattle.tr_stage.specs.Machine.{kind_of};
ghost use Rattle.tr_walk.specs.Events.{told_only};
ghost use Rattle.tr_walk.specs.inner.Telling.{AreRowsOf, egress_table};

use crate::Event;
use crate::places::{datapath_at, late_table};
use ct_state::Work;
use nb_store::Records;
use nv_base::{ObjId, OutOfMemory};
use pkt_core::Packet;
use sb_model::Pipeline;
use sb_rows::Rows;
use std::alloc::Global;
use tr_pipe::{Watch, run_pipeline};
use tr_stage::{Hit, Outcome};

// For so many hits there is room from the start: as many as most pipelines have.
const FEW: usize = 16;

/// What a walk goes by: the rows of a network, and the network.
#[derive(Clone, Copy)]
pub(crate) struct Flows<'a> {
    pub(crate) alloc: Global,
    pub(crate) rows: &'a Rows,
    pub(crate) records: &'a Records,
    pub(crate) minimal: bool,
}

/// Runs a packet through a pipeline of the datapath of a port, from this table on, and puts its hits after the events. Nothing becomes
/// of the packet where there is no such port.
pub(crate) fn run<W: Watch<Records>>(
    flows: Flows<'_>,
    port: ObjId,
    pipeline: Pipeline,
    table: u8,
    packet: &Packet,
    work: &mut Work,
    events: &mut Vec<Event>,
    watch: &mut W,
) -> Result<Option<Outcome>, OutOfMemory>
    requires rows { AreRowsOf flows.records.now flows.rows.now }
    requires table { IsSome (stage_at (kind_of (flows_at flows.records.now (datapath_at flows.records.now port))) pipeline table) }
    ensures hits { OnOk result (events.new.items ≡ events.old.items ++ told_only flows.entry.minimal (map variants.Hit (run_pipeline (flows_at flows.entry.records.now (datapath_at flows.entry.records.now port)) pipeline table packet.now work.old.state).hits)) }
    ensures state { OnOk result (work.new.state ≡ (run_pipeline (flows_at flows.entry.records.now (datapath_at flows.entry.records.now port)) pipeline table packet.now work.old.state).state) }
    ensures back { work.new.back ≡ work.old.back }
    ensures outcome { IfOk result (λ outcome. outcome ≡ (run_pipeline (flows_at flows.entry.records.now (datapath_at flows.entry.records.now port)) pipeline table packet.now work.old.state).outcome) }
{
    let dp = datapath_at(flows.records, port);
    // The numbers of datapaths begin at 1.
    if dp.0 == 0 {
        return Ok(None);
    }
    let mut hits = Vec::with_capacity(flows.alloc, FEW)?;
    let outcome = run_pipeline(
        flows.rows,
        flows.records,
        dp,
        pipeline,
        table,
        packet,
        work,
        &mut hits,
        watch,
    )?;
    tell_hits(flows.minimal, &hits, events)?;
    Ok(Some(outcome))
}

/// The table of egress that a packet leaves by, by a port.
#[tactic(auto, using(crate::proofs::Steps::egress_begins, crate::proofs::Steps::egress_ends))]
pub(crate) fn egress_table(records: &Records, port: ObjId, late: bool) -> u8
    ensures table { result ≡ egress_table records.now port late }
    ensures there { IsSome (stage_at (kind_of (flows_at records.now (datapath_at records.now port))) pipelines.Egress result) }
{
    if late {
        late_table(records, datapath_at(records, port))
    } else {
        0
    }
}

// Tells hits, unless the trace is minimal.
fn tell_hits(minimal: bool, hits: &[Hit], events: &mut Vec<Event>) -> Result<(), OutOfMemory>
    ensures { OnOk result (events.new.items ≡ events.old.items ++ told_only minimal (map variants.Hit hits.now)) }
{
    if minimal {
        return Ok(());
    }
    put_hits(hits, events)
}

fn put_hits(hits: &[Hit], events: &mut Vec<Event>) -> Result<(), OutOfMemory>
    ensures { OnOk result (events.new.items ≡ events.old.items ++ map variants.Hit hits.now) }
{
    for hit in hits {
        events.push(Event::Hit(*hit))?;
    }
    Ok(())
}
