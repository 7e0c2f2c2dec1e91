//! The walk of a packet: it comes in by a port, leaves by others, and goes on over their peers.
ghost use Rattle.std.specs.Prelude.{◌≡◌, ◌&&◌, ◌==◌, ◌++◌, map, IfOk, OnOk, OnErr};
ghost use Rattle.nv_base.specs.declared.field.Field.TheVariants.{Outport, FlagsLoopback};
ghost use Rattle.pkt_core.specs.Packet.{IsPacket, value};
ghost use Rattle.nb_model.specs.Network.{same};
ghost use Rattle.nb_model.specs.Sound.{IsSound};
ghost use Rattle.net_meaning.specs.Places.{datapath_at};
ghost use Rattle.net_meaning.specs.Walk.{carried, told_of};
ghost use Rattle.net_meaning.specs.Walk.Target.{Ports, Late};
ghost use Rattle.lr_units.specs.Network.{network_rows};
ghost use Rattle.tr_router.specs.Parts.{IsState};
ghost use Rattle.tr_walk.specs.Events.{event_of, told_only};
ghost use Rattle.tr_walk.specs.Machine.{machine, numbered, table_of, target_of};
ghost use Rattle.tr_walk.specs.Refined.{IsMeant};
ghost use Rattle.tr_walk.specs.Runnable.{AreRunnable};
ghost use Rattle.tr_walk.specs.inner.Telling.{AreRowsOf, events_of, egress_table, is_late, entering, arriving, sending, leaving, going_out, delivering, answering};

use crate::places::{Side, datapath_at, late_table, side_of};
use crate::ports::{group_of, ports_of};
use crate::run::{Flows, egress_table, run};
use crate::{Event, Parcel};
use ct_state::{State, Work};
use nb_store::Records;
use net_meaning::{Answer, Cause};
use nv_base::{Field, ObjId, OutOfMemory};
use pkt_core::Packet;
use sb_model::Pipeline;
use sb_rows::Rows;
use std::alloc::Global;
use tr_pipe::Watch;
use tr_stage::Outcome;

// For so many events there is room from the start: as many as most walks have.
const FEW: usize = 32;

/// What is told of a packet that comes in by a port and may take so many hops: a hit for each row that acts, unless the trace is minimal,
/// and what becomes of the packet and of its copies and answers, each to its end before the next (ovn-trace(8)); and the state becomes the one that they leave. `watch` is told of it as it happens.
/// The network is sound, and the rows are its own, whose actions the machine runs, so that each packet comes to an end in them. Where
/// memory runs out the answer is `OutOfMemory`, and the state is as before.
pub fn trace<W: Watch<Records>>(
    alloc: Global,
    rows: &Rows,
    records: &Records,
    state: &mut State,
    port: ObjId,
    packet: &Packet,
    hops: u32,
    minimal: bool,
    watch: &mut W,
) -> Result<Vec<Event>, OutOfMemory>
    requires sound { IsSound records.now }
    requires rows { rows.now ≡ network_rows records.now }
    requires run { AreRunnable records.now }
    ensures events { IfOk result (λ events. events.items ≡ told_only minimal (map event_of (machine records.now hops port packet.now state.old).told)) }
    ensures state { OnOk result (state.new ≡ (machine records.now hops port packet.now state.old).state) }
    ensures same { OnErr result (state.new ≡ state.old) }
    ensures refinement { IfOk result (λ events. IsMeant records.now hops port packet.now (record { before = state.old; told = events.items; after = state.new })) }
{
    let mut events = Vec::with_capacity(alloc, FEW)?;
    let flows = Flows {
        alloc,
        rows,
        records,
        minimal,
    };
    fits_numbers(state);
    fits_its_fields(packet);
    let mut work = Work::begin(alloc, state)?;
    match enter(flows, hops, port, packet, &mut work, &mut events, watch) {
        Ok(()) => {
            work.finish(state);
            Ok(events)
        }
        Err(OutOfMemory) => {
            work.abandon(state);
            Err(OutOfMemory)
        }
    }
}

// Its connections and neighbours are as many as may be, of numbers that fit.
fn fits_numbers(state: &State)
    ensures { IsState state.now }
{
    let _conns = state.conns().len();
    let _nbrs = state.nbrs().len();
}

// Each number of a packet fits its field.
fn fits_its_fields(packet: &Packet)
    ensures { IsPacket packet.now }
{
    let _number = packet.get(Field::Inport);
}

// A packet comes into a datapath by a port.
#[cycle(walk)]
#[tactic(auto, using(crate::proofs::Steps::ingress_begins))]
fn enter<W: Watch<Records>>(
    flows: Flows<'_>,
    hops: u32,
    arrival: ObjId,
    packet: &Packet,
    work: &mut Work,
    events: &mut Vec<Event>,
    watch: &mut W,
) -> Result<(), OutOfMemory>
    requires { AreRowsOf flows.records.now flows.rows.now }
    ensures told { OnOk result (events.new.items ≡ events.old.items ++ events_of flows.entry.minimal (entering flows.entry.records.now hops work.old.state arrival packet.now)) }
    ensures left { OnOk result (work.new.state ≡ (entering flows.entry.records.now hops work.old.state arrival packet.now).state) }
    ensures back { work.new.back ≡ work.old.back }
{
    let start = packet.start(arrival);
    let outcome = run(
        flows,
        arrival,
        Pipeline::Ingress,
        0,
        &start,
        work,
        events,
        watch,
    )?;
    arrive(flows, hops, arrival, &outcome, work, events, watch)
}

// What follows ingress.
#[cycle(walk)]
fn arrive<W: Watch<Records>>(
    flows: Flows<'_>,
    hops: u32,
    arrival: ObjId,
    outcome: &Option<Outcome>,
    work: &mut Work,
    events: &mut Vec<Event>,
    watch: &mut W,
) -> Result<(), OutOfMemory>
    requires { AreRowsOf flows.records.now flows.rows.now }
    ensures told { OnOk result (events.new.items ≡ events.old.items ++ events_of flows.entry.minimal (arriving flows.entry.records.now hops work.old.state arrival outcome.now)) }
    ensures left { OnOk result (work.new.state ≡ (arriving flows.entry.records.now hops work.old.state arrival outcome.now).state) }
    ensures back { work.new.back ≡ work.old.back }
{
    match outcome {
        Some(Outcome::Leave(packet, table)) => {
            if *table == 0 {
                return send(flows, hops, arrival, packet, work, events, watch);
            }
            if *table != late_table(flows.records, datapath_at(flows.records, arrival)) {
                return Ok(());
            }
            send_late(flows, hops, arrival, packet, work, events, watch)
        }
        Some(Outcome::Made(packet, table, answer)) => {
            if *table != table_of(flows, arrival, *answer) {
                return Ok(());
            }
            reply(flows, hops, arrival, *answer, packet, work, events, watch)
        }
        Some(Outcome::Drop(cause)) => {
            events.push(Event::Drop(datapath_at(flows.records, arrival), *cause))?;
            Ok(())
        }
        Some(Outcome::Deliver(_)) | None => Ok(()),
    }
}

// A packet goes to where its `outport` says. None goes back by its own port, unless it is turned back on purpose.
#[cycle(walk)]
#[tactic(auto, using(crate::proofs::Steps::egress_begins))]
fn send<W: Watch<Records>>(
    flows: Flows<'_>,
    hops: u32,
    arrival: ObjId,
    packet: &Packet,
    work: &mut Work,
    events: &mut Vec<Event>,
    watch: &mut W,
) -> Result<(), OutOfMemory>
    requires { AreRowsOf flows.records.now flows.rows.now }
    ensures told { OnOk result (events.new.items ≡ events.old.items
        ++ events_of flows.entry.minimal (sending flows.entry.records.now hops work.old.state arrival (target_of flows.entry.records.now (datapath_at flows.entry.records.now arrival) (value packet.now Outport)) (carried packet.now))) }
    ensures left { OnOk result (work.new.state ≡ (sending flows.entry.records.now hops work.old.state arrival (target_of flows.entry.records.now (datapath_at flows.entry.records.now arrival) (value packet.now Outport)) (carried packet.now)).state) }
    ensures back { work.new.back ≡ work.old.back }
{
    let port = outport(packet);
    let packet = carried(packet);
    let dp = datapath_at(flows.records, arrival);
    match group_of(port) {
        Some(group) => {
            let ports = ports_of(flows.alloc, flows.records, dp, group)?;
            copy(flows, hops, arrival, &ports, &packet, work, events, watch)
        }
        None => {
            if is_same_port(arrival, port, &packet) {
                events.push(Event::Drop(dp, Cause::SamePort))?;
                return Ok(());
            }
            leave(
                flows, hops, arrival, port, false, &packet, work, events, watch,
            )
        }
    }
}

// A packet goes late by the one port that its `outport` says.
#[cycle(walk)]
fn send_late<W: Watch<Records>>(
    flows: Flows<'_>,
    hops: u32,
    arrival: ObjId,
    packet: &Packet,
    work: &mut Work,
    events: &mut Vec<Event>,
    watch: &mut W,
) -> Result<(), OutOfMemory>
    requires { AreRowsOf flows.records.now flows.rows.now }
    ensures told { OnOk result (events.new.items ≡ events.old.items
        ++ events_of flows.entry.minimal (sending flows.entry.records.now hops work.old.state arrival (Late (numbered (value packet.now Outport))) (carried packet.now))) }
    ensures left { OnOk result (work.new.state ≡ (sending flows.entry.records.now hops work.old.state arrival (Late (numbered (value packet.now Outport))) (carried packet.now)).state) }
    ensures back { work.new.back ≡ work.old.back }
{
    let port = outport(packet);
    let packet = carried(packet);
    if is_same_port(arrival, port, &packet) {
        let dp = datapath_at(flows.records, arrival);
        events.push(Event::Drop(dp, Cause::SamePort))?;
        return Ok(());
    }
    leave(
        flows, hops, arrival, port, true, &packet, work, events, watch,
    )
}

// Copies of a packet leave by all ports but the one that it came in by.
#[cycle(walk)]
#[tactic(auto, using(crate::proofs::Steps::egress_begins))]
fn copy<W: Watch<Records>>(
    flows: Flows<'_>,
    hops: u32,
    arrival: ObjId,
    ports: &[ObjId],
    packet: &Packet,
    work: &mut Work,
    events: &mut Vec<Event>,
    watch: &mut W,
) -> Result<(), OutOfMemory>
    requires { AreRowsOf flows.records.now flows.rows.now }
    ensures told { OnOk result (events.new.items ≡ events.old.items ++ events_of flows.entry.minimal (sending flows.entry.records.now hops work.old.state arrival (Ports ports.now) packet.now)) }
    ensures left { OnOk result (work.new.state ≡ (sending flows.entry.records.now hops work.old.state arrival (Ports ports.now) packet.now).state) }
    ensures back { work.new.back ≡ work.old.back }
{
    for port in ports {
        if is_same(*port, arrival) {
            continue;
        }
        leave(
            flows, hops, arrival, *port, false, packet, work, events, watch,
        )?;
    }
    Ok(())
}

// A packet leaves by a port: by all of egress, or late.
#[cycle(walk)]
fn leave<W: Watch<Records>>(
    flows: Flows<'_>,
    hops: u32,
    arrival: ObjId,
    port: ObjId,
    late: bool,
    packet: &Packet,
    work: &mut Work,
    events: &mut Vec<Event>,
    watch: &mut W,
) -> Result<(), OutOfMemory>
    requires { AreRowsOf flows.records.now flows.rows.now }
    ensures told { OnOk result (events.new.items ≡ events.old.items ++ events_of flows.entry.minimal (leaving flows.entry.records.now hops work.old.state arrival port (egress_table flows.entry.records.now port late) packet.now)) }
    ensures left { OnOk result (work.new.state ≡ (leaving flows.entry.records.now hops work.old.state arrival port (egress_table flows.entry.records.now port late) packet.now).state) }
    ensures back { work.new.back ≡ work.old.back }
{
    let mut packet = *packet;
    packet.set(Field::Outport, u128::from(port.0));
    let table = egress_table(flows.records, port, late);
    let outcome = run(
        flows,
        port,
        Pipeline::Egress,
        table,
        &packet,
        work,
        events,
        watch,
    )?;
    go_out(flows, hops, arrival, port, &outcome, work, events, watch)
}

// What follows egress.
#[cycle(walk)]
fn go_out<W: Watch<Records>>(
    flows: Flows<'_>,
    hops: u32,
    arrival: ObjId,
    port: ObjId,
    outcome: &Option<Outcome>,
    work: &mut Work,
    events: &mut Vec<Event>,
    watch: &mut W,
) -> Result<(), OutOfMemory>
    requires { AreRowsOf flows.records.now flows.rows.now }
    ensures told { OnOk result (events.new.items ≡ events.old.items ++ events_of flows.entry.minimal (going_out flows.entry.records.now hops work.old.state arrival port outcome.now)) }
    ensures left { OnOk result (work.new.state ≡ (going_out flows.entry.records.now hops work.old.state arrival port outcome.now).state) }
    ensures back { work.new.back ≡ work.old.back }
{
    match outcome {
        Some(Outcome::Deliver(packet)) => deliver(
            flows,
            hops,
            port,
            &carried(packet),
            work,
            events,
            watch,
        ),
        Some(Outcome::Made(packet, table, answer)) => {
            if *table != table_of(flows, port, *answer) {
                return Ok(());
            }
            reply(flows, hops, arrival, *answer, packet, work, events, watch)
        }
        Some(Outcome::Drop(cause)) => {
            events.push(Event::Drop(datapath_at(flows.records, port), *cause))?;
            Ok(())
        }
        Some(Outcome::Leave(_, _)) | None => Ok(()),
    }
}

// A packet is delivered at a port: to a host, with its header fields alone, or over to the peer.
#[cycle(walk)]
fn deliver<W: Watch<Records>>(
    flows: Flows<'_>,
    hops: u32,
    port: ObjId,
    packet: &Packet,
    work: &mut Work,
    events: &mut Vec<Event>,
    watch: &mut W,
) -> Result<(), OutOfMemory>
    requires { AreRowsOf flows.records.now flows.rows.now }
    ensures told { OnOk result (events.new.items ≡ events.old.items ++ events_of flows.entry.minimal (delivering flows.entry.records.now hops work.old.state port packet.now)) }
    ensures left { OnOk result (work.new.state ≡ (delivering flows.entry.records.now hops work.old.state port packet.now).state) }
    ensures back { work.new.back ≡ work.old.back }
{
    match side_of(flows.records, port) {
        Side::Host => {
            let parcel = Parcel::new(flows.alloc, packet.headers())?;
            events.push(Event::Output(port, parcel))?;
            Ok(())
        }
        Side::NoPeer => {
            events.push(Event::Drop(datapath_at(flows.records, port), Cause::NoPeer))?;
            Ok(())
        }
        Side::Peer(peer) => {
            if hops == 0 {
                events.push(Event::HopLimit(peer))?;
                return Ok(());
            }
            enter(flows, hops - 1, peer, packet, work, events, watch)
        }
    }
}

// A packet that was made where one came in by a port leaves by its `outport`.
#[cycle(walk)]
fn reply<W: Watch<Records>>(
    flows: Flows<'_>,
    hops: u32,
    arrival: ObjId,
    answer: Answer,
    packet: &Packet,
    work: &mut Work,
    events: &mut Vec<Event>,
    watch: &mut W,
) -> Result<(), OutOfMemory>
    requires { AreRowsOf flows.records.now flows.rows.now }
    ensures told { OnOk result (events.new.items ≡ events.old.items ++ events_of flows.entry.minimal (answering flows.entry.records.now hops work.old.state arrival answer packet.now)) }
    ensures left { OnOk result (work.new.state ≡ (answering flows.entry.records.now hops work.old.state arrival answer packet.now).state) }
    ensures back { work.new.back ≡ work.old.back }
{
    tell_answer(arrival, answer, events)?;
    if hops == 0 {
        events.push(Event::HopLimit(arrival))?;
        return Ok(());
    }
    let port = outport(packet);
    let packet = carried(packet);
    leave(
        flows,
        hops - 1,
        arrival,
        port,
        is_late(answer),
        &packet,
        work,
        events,
        watch,
    )
}

// A packet that is made is told of, unless it is an ARP request.
fn tell_answer(arrival: ObjId, answer: Answer, events: &mut Vec<Event>) -> Result<(), OutOfMemory>
    ensures { OnOk result (events.new.items ≡ events.old.items ++ map event_of (told_of answer arrival)) }
{
    match answer {
        Answer::Reject => events.push(Event::Reject(arrival))?,
        Answer::Arp => {}
    }
    Ok(())
}

// The table of egress by which a packet leaves that is made where a packet is at a port.
fn table_of(flows: Flows<'_>, port: ObjId, answer: Answer) -> u8
    ensures { result ≡ table_of flows.entry.records.now (datapath_at flows.entry.records.now port) answer }
{
    match answer {
        Answer::Reject => late_table(flows.records, datapath_at(flows.records, port)),
        Answer::Arp => 0,
    }
}

// Whether an answer leaves late: an ARP request goes through all of egress, as other packets do.
fn is_late(answer: Answer) -> bool
    ensures { result ≡ is_late answer }
{
    match answer {
        Answer::Reject => true,
        Answer::Arp => false,
    }
}

fn is_same(a: ObjId, b: ObjId) -> bool
    ensures { result ≡ same a b }
{
    a.0 == b.0
}

// Whether a packet would go back by the port that it came in by, and was not turned back on purpose.
fn is_same_port(arrival: ObjId, port: ObjId, packet: &Packet) -> bool
    ensures { result ≡ same port arrival && (value packet.now FlagsLoopback == 0) }
{
    is_same(port, arrival) && packet.get(Field::FlagsLoopback) == 0
}

// What a packet takes with it from part to part: its header fields, the port that it came in by, and whether it may go back.
fn carried(packet: &Packet) -> Packet
    ensures { result ≡ carried packet.now }
{
    let mut carried = packet.headers();
    carried.set(Field::Inport, packet.get(Field::Inport));
    carried.set(Field::FlagsLoopback, packet.get(Field::FlagsLoopback));
    carried
}

// The port that a packet goes out by.
fn outport(packet: &Packet) -> ObjId
    ensures { result ≡ numbered (value packet.now Outport) }
{
    ObjId(packet.get(Field::Outport) as u32)
}
