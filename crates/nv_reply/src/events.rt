ghost use Rattle.std.specs.Prelude.{◌≡◌, ◌++◌, List, ℕ, OnOk, IfErr};
ghost use Rattle.nv_io.specs.Writing.{Wrote, PutFailed};
ghost use Rattle.nv_reply.specs.Events.{datapath_name, port_name, event_line, event_lines};
ghost use Rattle.nv_reply.specs.Stops.{StopsWithin};
ghost use Rattle.tr_walk.specs.declared.event.Event.TheVariants.{Hit, Output, Drop, Reject, HopLimit};

use crate::stop::Stop;
use nb_store::Records;
use net_meaning::Cause;
use nv_base::{ObjId, OutOfMemory, put_dec};
use nv_io::{Sink, put_all};
use pkt_core::{Packet, put_packet};
use std::alloc::Global;
use tr_walk::Event;

// A piece of text is put once it has so many bytes.
const PIECE: usize = 65_536;

/// Puts the lines of events, some at a time: no more than a piece of them, and the line that ends it, is in memory (ovn-trace(8); their
/// form is not from OVN). `Stop` where the sink fails or memory runs out: a front of the lines was put.
pub fn put_events<K: Sink>(
    alloc: Global,
    records: &Records,
    events: &[Event],
    sink: &mut K,
) -> Result<(), Stop>
    ensures put { OnOk result (Wrote K.put_gives K.state sink.old sink.new (event_lines records.now events.now)) }
    ensures stop { IfErr result (StopsWithin
        (Wrote K.put_gives K.state sink.old sink.new) (PutFailed K.put_gives K.state sink.old sink.new)
        (event_lines records.now events.now)) }
{
    let mut text = Vec::new(alloc);
    for event in events {
        put_event(records, event, &mut text)?;
        put_piece(&mut text, sink)?;
    }
    put_all(sink, &text)?;
    Ok(())
}

// Puts the text where it is as long as a piece, and lets it go.
fn put_piece<K: Sink>(text: &mut Vec<u8>, sink: &mut K) -> Result<(), Stop>
    ensures put { OnOk result ((part : List ℕ) × (text.old.items ≡ part ++ text.new.items)
        × Wrote K.put_gives K.state sink.old sink.new part) }
    ensures stop { IfErr result (StopsWithin
        (Wrote K.put_gives K.state sink.old sink.new) (PutFailed K.put_gives K.state sink.old sink.new)
        text.old.items) }
{
    if text.len() < PIECE {
        return Ok(());
    }
    put_all(sink, text)?;
    text.clear();
    Ok(())
}

fn put_event(records: &Records, event: &Event, out: &mut Vec<u8>) -> Result<(), OutOfMemory>
    ensures { OnOk result (out.new.items ≡ out.old.items ++ event_line records.now event.now) }
{
    match event {
        Event::Hit(hit) => put_hit(records, hit, out),
        Event::Output(port, parcel) => put_output(records, *port, parcel.packet(), out),
        Event::Drop(dp, cause) => put_drop(records, *dp, *cause, out),
        Event::Reject(port) => put_reject(records, *port, out),
        Event::HopLimit(port) => put_hop_limit(records, *port, out),
    }
}

fn put_hit(records: &Records, hit: &tr_stage::Hit, out: &mut Vec<u8>) -> Result<(), OutOfMemory>
    ensures { OnOk result (out.new.items ≡ out.old.items ++ event_line records.now (Hit hit.now)) }
{
    out.extend_from_slice(b"hit ")?;
    put_datapath_name(records, hit.dp, out)?;
    out.push(b' ')?;
    out.extend_from_slice(hit.stage.name().as_bytes())?;
    out.push(b' ')?;
    put_dec(out, u128::from(hit.priority))?;
    out.push(b' ')?;
    put_dec(out, u128::from(hit.hint.0))?;
    out.push(b'\n')?;
    Ok(())
}

fn put_output(
    records: &Records,
    port: ObjId,
    packet: &Packet,
    out: &mut Vec<u8>,
) -> Result<(), OutOfMemory>
    ensures { OnOk result (out.new.items ≡ out.old.items ++ event_line records.now (Output port packet.now)) }
{
    out.extend_from_slice(b"output ")?;
    put_port_name(records, port, out)?;
    out.push(b' ')?;
    put_packet(out, packet)?;
    out.push(b'\n')?;
    Ok(())
}

fn put_drop(
    records: &Records,
    dp: ObjId,
    cause: Cause,
    out: &mut Vec<u8>,
) -> Result<(), OutOfMemory>
    ensures { OnOk result (out.new.items ≡ out.old.items ++ event_line records.now (Drop dp cause)) }
{
    out.extend_from_slice(b"drop ")?;
    put_datapath_name(records, dp, out)?;
    out.push(b' ')?;
    out.extend_from_slice(cause.name().as_bytes())?;
    out.push(b'\n')?;
    Ok(())
}

fn put_reject(records: &Records, port: ObjId, out: &mut Vec<u8>) -> Result<(), OutOfMemory>
    ensures { OnOk result (out.new.items ≡ out.old.items ++ event_line records.now (Reject port)) }
{
    out.extend_from_slice(b"reject ")?;
    put_port_name(records, port, out)?;
    out.push(b'\n')?;
    Ok(())
}

fn put_hop_limit(records: &Records, port: ObjId, out: &mut Vec<u8>) -> Result<(), OutOfMemory>
    ensures { OnOk result (out.new.items ≡ out.old.items ++ event_line records.now (HopLimit port)) }
{
    out.extend_from_slice(b"hop-limit ")?;
    put_port_name(records, port, out)?;
    out.push(b'\n')?;
    Ok(())
}

/// The name of the switch or the router of this number.
pub(crate) fn put_datapath_name(
    records: &Records,
    number: ObjId,
    out: &mut Vec<u8>,
) -> Result<(), OutOfMemory>
    ensures { OnOk result (out.new.items ≡ out.old.items ++ datapath_name records.now number) }
{
    if let Some(switch) = records.switches().get(number) {
        out.extend_from_slice(switch.name.as_slice())?;
    } else if let Some(router) = records.routers().get(number) {
        out.extend_from_slice(router.name.as_slice())?;
    }
    Ok(())
}

/// The name of the port of this number, of a switch or of a router.
pub(crate) fn put_port_name(
    records: &Records,
    number: ObjId,
    out: &mut Vec<u8>,
) -> Result<(), OutOfMemory>
    ensures { OnOk result (out.new.items ≡ out.old.items ++ port_name records.now number) }
{
    if let Some(port) = records.ports().get(number) {
        out.extend_from_slice(port.name.as_slice())?;
    } else if let Some(port) = records.router_ports().get(number) {
        out.extend_from_slice(port.name.as_slice())?;
    }
    Ok(())
}
