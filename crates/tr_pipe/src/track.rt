//! Tracking: a packet is looked up among the connections, and a connection is recorded or marked.
ghost use Rattle.std.specs.Prelude.{◌≡◌, true, IfOk};
ghost use Rattle.pkt_core.specs.Prerequisite.{is_ip4};
ghost use Rattle.sb_model.specs.Stage.{pipeline_of};
ghost use Rattle.tr_pipe.specs.Machine.{kept};
ghost use Rattle.ct_core.specs.Look.{look};
ghost use Rattle.tr_pipe.specs.Tracking.{begun, bit, committed, marked_by, seen, tracked, zone_of};
ghost use Rattle.tr_pipe.specs.inner.Moving.{effect_of, in_flight};

use crate::moving::Moving;
use ct_core::{Entry, Look, Zone};
use ct_state::Work;
use ct_table::CtFault;
use nv_base::{Field, ObjId, OutOfMemory, Prerequisite};
use pkt_core::Packet;
use sb_model::{Pipeline, Stage};
use tr_stage::{Cause, Ending};

/// Looks a packet up in the zone of its port, if it is one of IPv4.
pub(crate) fn track(stage: Stage, moving: &mut Moving, work: &Work)
    ensures { in_flight moving.new work.now.state ≡ tracked (zone_of (pipeline_of stage) moving.old.packet) (in_flight moving.old work.now.state) }
{
    if moving.packet.meets(Prerequisite::Ip4) {
        see(zone_of(stage.pipeline(), &moving.packet), moving, work);
    }
}

/// Looks a packet of IPv4 up in a zone, and notes what is found in it and beside it.
pub(crate) fn see(zone: Zone, moving: &mut Moving, work: &Work) -> Look
    requires { is_ip4 moving.now.packet ≡ true }
    ensures found { result ≡ look work.now.state.conns zone moving.old.packet }
    ensures noted { in_flight moving.new work.now.state ≡ seen result (in_flight moving.old work.now.state) }
{
    let found = work.classify(zone, &moving.packet);
    mark_by(&found, &mut moving.packet);
    moving.look = Some(found);
    found
}

/// Records the connection that a packet begins, or marks the one that it is of. Where there is no room for another the packet is
/// dropped.
pub(crate) fn commit(
    stage: Stage,
    blocked: bool,
    moving: &Moving,
    work: &mut Work,
) -> Result<Option<Ending>, OutOfMemory>
    ensures effect { IfOk result (λ ended. kept (in_flight moving.now work.old.state) (committed (zone_of (pipeline_of stage) moving.now.packet) blocked moving.now.packet work.old.state moving.now.look)
        ≡ effect_of ended (in_flight moving.now work.new.state)) }
    ensures back { work.new.back ≡ work.old.back }
{
    match moving.look {
        Some(Look::New) => {
            let zone = zone_of(stage.pipeline(), &moving.packet);
            match work.commit(begun(zone, blocked, &moving.packet)) {
                Ok(()) => Ok(None),
                Err(CtFault::Full) => Ok(Some(Ending::Dropped(Cause::CtFull))),
                Err(CtFault::Memory) => Err(OutOfMemory),
            }
        }
        Some(
            Look::Found {
                place,
                related: false,
                ..
            },
        ) => {
            work.mark(place, blocked)?;
            Ok(None)
        }
        _ => Ok(None),
    }
}

/// The zone of the port that a packet came in by, and in egress of the port that it goes out by.
pub(crate) fn zone_of(pipeline: Pipeline, packet: &Packet) -> Zone
    ensures { result ≡ zone_of pipeline packet.now }
{
    let port = match pipeline {
        Pipeline::Ingress => Field::Inport,
        Pipeline::Egress => Field::Outport,
    };
    Zone::Port(ObjId(packet.get(port) as u32))
}

// Writes into a packet what a look-up told.
fn mark_by(found: &Look, packet: &mut Packet)
    ensures { packet.new ≡ marked_by found.now packet.old }
{
    packet.set(Field::CtState, u128::from(found.flags()));
    packet.set(Field::CtMarkBlocked, u128::from(found.is_marked()));
}

// The connection that a packet begins in a zone.
fn begun(zone: Zone, blocked: bool, packet: &Packet) -> Entry
    ensures { result ≡ begun zone blocked packet.now }
{
    let orig = packet.tuple();
    Entry {
        zone,
        orig,
        reply: orig.swap(),
        blocked,
    }
}
