//! Translation: a packet gets the addresses of its connection, or it begins a connection with others.
ghost use Rattle.std.specs.Prelude.{◌≡◌, Some, IfOk};
ghost use Rattle.pkt_core.specs.Prerequisite.{is_ip4};
ghost use Rattle.ct_core.specs.Translation.{back, begun_as, followed, forth, translated_at, with_destination};
ghost use Rattle.sb_model.specs.Stage.{pipeline_of};
ghost use Rattle.tr_pipe.specs.Machine.{bound, bound_if, hidden};
ghost use Rattle.tr_pipe.specs.Translating.{balanced_to, redirected_to, tracked_by, unhidden, way_of, zone_at};
ghost use Rattle.tr_pipe.specs.inner.Moving.{in_flight, with_flight};

use crate::moving::Moving;
use crate::track::{see, zone_of};
use act_core::Target;
use ct_core::{Entry, Look, Side, Zone};
use ct_state::Work;
use ct_table::{CtFault, balance};
use nv_base::{Ip4, ObjId, OutOfMemory, Prerequisite};
use pkt_core::{Packet, Tuple};
use sb_model::{DatapathKind, Pipeline, Stage};
use tr_stage::{Cause, Ending};

/// The zone in which a stage of a datapath balances load: of a switch that of the packet's port, of a router that in which destinations
/// change.
pub(crate) fn zone_at(dp: ObjId, stage: Stage, packet: &Packet) -> Zone
    ensures { result ≡ zone_at dp stage packet.now }
{
    match stage.kind() {
        DatapathKind::Switch => zone_of(stage.pipeline(), packet),
        DatapathKind::Router => Zone::Dnat(dp),
    }
}

/// Looks a packet up in a zone, if it is one of IPv4. It gets the addresses of its connection, in either direction.
pub(crate) fn follow(zone: Zone, moving: &mut Moving, work: &Work)
    ensures { in_flight moving.new work.now.state ≡ tracked_by followed zone (in_flight moving.old work.now.state) }
{
    if moving.packet.meets(Prerequisite::Ip4) {
        let found = see(zone, moving, work);
        moving.packet = followed(&found, &moving.packet, work);
    }
}

/// Looks a packet up in a zone, if it is one of IPv4. It gets the destination of its connection on arriving, and on leaving, if it is a
/// reply, its source.
pub(crate) fn redirect_found(pipeline: Pipeline, zone: Zone, moving: &mut Moving, work: &Work)
    ensures { in_flight moving.new work.now.state ≡ tracked_by (way_of pipeline) zone (in_flight moving.old work.now.state) }
{
    if moving.packet.meets(Prerequisite::Ip4) {
        let found = see(zone, moving, work);
        moving.packet = match pipeline {
            Pipeline::Ingress => forth(&found, &moving.packet, work),
            Pipeline::Egress => back(&found, &moving.packet, work),
        };
    }
}

/// Gives a reply to a source that was changed in a zone its destination back, if it is a packet of IPv4. What was noted of it stays.
pub(crate) fn unhide(zone: Zone, moving: &mut Moving, work: &Work)
    ensures { in_flight moving.new work.now.state ≡ unhidden zone (in_flight moving.old work.now.state) }
{
    if moving.packet.meets(Prerequisite::Ip4) {
        let found = work.classify(zone, &moving.packet);
        moving.packet = back(&found, &moving.packet, work);
    }
}

/// Sends a packet to one of these targets, where it begins a connection in a zone.
pub(crate) fn balance_to(
    next: Stage,
    zone: Zone,
    targets: &[Target],
    moving: &mut Moving,
    work: &mut Work,
) -> Result<Ending, OutOfMemory>
    ensures end { IfOk result (λ ending. bound_if (Some next) zone (balanced_to targets.now moving.old.packet) (in_flight moving.old work.old.state) ≡ with_flight ending (in_flight moving.new work.new.state)) }
    ensures back { work.new.back ≡ work.old.back }
{
    match target_for(targets, &moving.packet) {
        Some(tuple) => bind(next, zone, tuple, moving, work),
        None => Ok(Ending::On(next)),
    }
}

/// Sends a packet to an address, where it begins a connection in a zone.
pub(crate) fn redirect(
    next: Stage,
    zone: Zone,
    addr: Ip4,
    moving: &mut Moving,
    work: &mut Work,
) -> Result<Ending, OutOfMemory>
    ensures end { IfOk result (λ ending. bound (Some next) zone (redirected_to addr moving.old.packet) (in_flight moving.old work.old.state) ≡ with_flight ending (in_flight moving.new work.new.state)) }
    ensures back { work.new.back ≡ work.old.back }
{
    let tuple = Tuple {
        dst: addr,
        ..moving.packet.tuple()
    };
    bind(next, zone, tuple, moving, work)
}

/// Gives a packet of IPv4 that begins a connection in a zone an external address as its source, with a port that is free there, and one
/// of a connection its addresses where it goes in the direction of that. Where no port is free, or there is no room for a connection, it
/// is dropped.
pub(crate) fn hide(
    next: Stage,
    zone: Zone,
    external: Ip4,
    moving: &mut Moving,
    work: &mut Work,
) -> Result<Ending, OutOfMemory>
    ensures end { IfOk result (λ ending. hidden (Some next) zone external (in_flight moving.old work.old.state) ≡ with_flight ending (in_flight moving.new work.new.state)) }
    ensures back { work.new.back ≡ work.old.back }
{
    if !moving.packet.meets(Prerequisite::Ip4) {
        return Ok(Ending::On(next));
    }
    match work.classify(zone, &moving.packet) {
        Look::New => {
            let tuple = moving.packet.tuple();
            let Some(port) = work.snat_port(zone, tuple, external) else {
                return Ok(Ending::Dropped(Cause::NoPort));
            };
            let tuple = Tuple {
                src: external,
                sport: port,
                ..tuple
            };
            bind(next, zone, tuple, moving, work)
        }
        found => {
            moving.packet = forth(&found, &moving.packet, work);
            Ok(Ending::On(next))
        }
    }
}

// A packet gets a tuple, and begins a connection in a zone. Where there is no room for it the packet is dropped.
fn bind(
    next: Stage,
    zone: Zone,
    tuple: Tuple,
    moving: &mut Moving,
    work: &mut Work,
) -> Result<Ending, OutOfMemory>
    ensures end { IfOk result (λ ending. bound (Some next) zone tuple (in_flight moving.old work.old.state) ≡ with_flight ending (in_flight moving.new work.new.state)) }
    ensures back { work.new.back ≡ work.old.back }
{
    match work.commit(begun_as(zone, tuple, &moving.packet)) {
        Ok(()) => {
            moving.packet.set_tuple(tuple);
            Ok(Ending::On(next))
        }
        Err(CtFault::Full) => Ok(Ending::Dropped(Cause::CtFull)),
        Err(CtFault::Memory) => Err(OutOfMemory),
    }
}

// The connection of a packet that gets this tuple.
fn begun_as(zone: Zone, tuple: Tuple, packet: &Packet) -> Entry
    ensures { result ≡ begun_as zone tuple packet.now }
{
    Entry {
        zone,
        orig: packet.tuple(),
        reply: tuple.swap(),
        blocked: false,
    }
}

// The tuple of a packet that goes to one of these targets, if there is any.
fn target_for(targets: &[Target], packet: &Packet) -> Option<Tuple>
    ensures { result ≡ balanced_to targets.now packet.now }
{
    if targets.is_empty() {
        return None;
    }
    let tuple = packet.tuple();
    let target = targets.get(balance(tuple, targets.len()))?;
    Some(with_destination(target, tuple))
}

// A tuple to a target, with its port, if the target has one.
fn with_destination(target: &Target, tuple: Tuple) -> Tuple
    ensures { result ≡ with_destination target.now.addr target.now.port tuple }
{
    Tuple {
        dst: target.addr,
        dport: target.port.unwrap_or(tuple.dport),
        ..tuple
    }
}

// A packet with the addresses that the connection at a place gives to packets of a direction.
fn translated_at(place: u32, side: Side, packet: &Packet, work: &Work) -> Packet
    ensures { result ≡ translated_at work.now.state.conns place side packet.now }
{
    match work.entry(place) {
        Some(entry) => entry.translate(side, packet),
        None => *packet,
    }
}

// A packet that was looked up, translated where it is of a connection.
fn followed(found: &Look, packet: &Packet, work: &Work) -> Packet
    ensures { result ≡ followed work.now.state.conns packet.now found.now }
{
    match found {
        Look::Found { place, side, .. } => translated_at(*place, *side, packet, work),
        _ => *packet,
    }
}

// Translated where it goes in the direction of its connection.
fn forth(found: &Look, packet: &Packet, work: &Work) -> Packet
    ensures { result ≡ forth work.now.state.conns packet.now found.now }
{
    match found {
        Look::Found {
            place,
            side: Side::Orig,
            ..
        } => translated_at(*place, Side::Orig, packet, work),
        _ => *packet,
    }
}

// Translated where it is a reply.
fn back(found: &Look, packet: &Packet, work: &Work) -> Packet
    ensures { result ≡ back work.now.state.conns packet.now found.now }
{
    match found {
        Look::Found {
            place,
            side: Side::Reply,
            ..
        } => translated_at(*place, Side::Reply, packet, work),
        _ => *packet,
    }
}
