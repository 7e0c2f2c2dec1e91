//! The way of a traced packet.
use crate::ends::{End, put_end};
use crate::text::{Side, is_switch, put_escaped, put_place};
use ct_core::Look;
use ct_state::Work;
use nb_store::Records;
use nv_base::{Field, ObjId, OutOfMemory, put_dec};
use pkt_core::{Packet, put_packet};
use sb_model::{Pipeline, Row, Stage};
use std::alloc::Global;
use tr_pipe::Watch;
use tr_walk::Event;

// A pipeline that the packet or a copy of it begins in.
#[derive(Drop)]
struct Leg {
    // How many rows acted before it.
    after: usize,
    dp: ObjId,
    pipeline: Pipeline,
    packet: Packet,
}

/// Who watches a traced packet, and keeps in which pipelines it and its copies begin.
#[derive(Drop)]
pub struct Way {
    rows: usize,
    legs: Vec<Leg>,
}

impl Way {
    /// Nothing was watched yet. It takes no memory.
    pub fn new(alloc: Global) -> Self {
        Way {
            rows: 0,
            legs: Vec::new(alloc),
        }
    }
}

impl Watch<Records> for Way {
    fn begin(
        &mut self,
        _env: &Records,
        dp: ObjId,
        pipeline: Pipeline,
        packet: &Packet,
    ) -> Result<(), OutOfMemory> {
        self.legs.push(Leg {
            after: self.rows,
            dp,
            pipeline,
            packet: *packet,
        })?;
        Ok(())
    }

    fn act(
        &mut self,
        _env: &Records,
        _stage: Stage,
        _row: &Row,
        _after: &Packet,
        _look: &Option<Look>,
        _work: &Work,
    ) -> Result<(), OutOfMemory> {
        self.rows = self.rows.saturating_add(1);
        Ok(())
    }
}

// Where the packet is, while its way is drawn: its datapath and port, and the packet as it last came into ingress and as it is.
#[derive(Clone, Copy)]
struct Here {
    dp: ObjId,
    port: ObjId,
    came: Packet,
    now: Packet,
    // How many edges were drawn.
    edges: usize,
}

// The texts of a way: its nodes and edges, and the lines of a note, which say what of the packet is not as it was.
#[derive(Drop)]
struct Pen {
    edges: Vec<u8>,
    lines: Vec<u8>,
}

/// Appends the way of a packet: an edge from what begins it, through each datapath and from each to the next, and to each of its ends; and a
/// note that says, by the numbers of the edges, the packet that comes and what was rewritten.
pub(crate) fn put_way(
    alloc: Global,
    out: &mut Vec<u8>,
    records: &Records,
    way: &Way,
    events: &[Event],
) -> Result<(), OutOfMemory> {
    let mut pen = Pen {
        edges: Vec::new(alloc),
        lines: Vec::new(alloc),
    };
    put_edges(alloc, &mut pen, records, way, events)?;
    out.extend_from_slice(&pen.edges)?;
    put_note(out, &pen.lines)
}

fn put_edges(
    alloc: Global,
    pen: &mut Pen,
    records: &Records,
    way: &Way,
    events: &[Event],
) -> Result<(), OutOfMemory> {
    let mut here = Here {
        dp: ObjId(0),
        port: ObjId(0),
        came: Packet::zero(),
        now: Packet::zero(),
        edges: 0,
    };
    let mut rows: usize = 0;
    let mut leg: usize = 0;
    for event in events {
        match event {
            Event::Hit(_) => {
                if let Some(next) = way.legs.get(leg) {
                    if next.after == rows {
                        put_leg(alloc, pen, records, next, &mut here)?;
                        leg = leg.saturating_add(1);
                    }
                }
                rows = rows.saturating_add(1);
            }
            Event::Output(_, parcel) => {
                let packet = *parcel.packet();
                end(alloc, pen, records, &mut here, End::Output, &packet)?;
            }
            Event::Drop(_, cause) => {
                let packet = here.now;
                end(alloc, pen, records, &mut here, End::Drop(*cause), &packet)?;
            }
            Event::Reject(_) => {
                let packet = here.now;
                end(alloc, pen, records, &mut here, End::Reject, &packet)?;
            }
            Event::HopLimit(_) => {
                let packet = here.now;
                end(alloc, pen, records, &mut here, End::HopLimit, &packet)?;
            }
        }
    }
    Ok(())
}

// The edge to where a pipeline begins.
fn put_leg(
    alloc: Global,
    pen: &mut Pen,
    records: &Records,
    leg: &Leg,
    here: &mut Here,
) -> Result<(), OutOfMemory> {
    let inport = inport_of(&leg.packet);
    let number = here.edges.saturating_add(1);
    match leg.pipeline {
        Pipeline::Ingress => {
            match records.peer_of(inport) {
                Some(peer) if here.edges > 0 => {
                    let from = records.on_datapath(peer).unwrap_or(here.dp);
                    put_step(
                        pen,
                        records,
                        (from, peer),
                        (leg.dp, inport),
                        Side::Link,
                        number,
                    )?;
                }
                _ => put_first(pen, records, leg.dp, inport, number)?,
            }
            put_changes(alloc, pen, number, &here.now, &leg.packet)?;
            here.came = leg.packet;
            here.port = inport;
        }
        Pipeline::Egress => {
            let outport = outport_of(&leg.packet);
            // An answer begins where the packet is that it is made of, and leaves by the port at which that came in.
            let from = match records.on_datapath(inport) {
                Some(dp) if dp == leg.dp && inport != outport => inport,
                _ => here.port,
            };
            put_step(
                pen,
                records,
                (leg.dp, from),
                (leg.dp, outport),
                Side::Own,
                number,
            )?;
            put_changes(alloc, pen, number, &here.came, &leg.packet)?;
            here.port = outport;
        }
    }
    here.edges = number;
    here.dp = leg.dp;
    here.now = leg.packet;
    Ok(())
}

// The port that a packet came in by.
fn inport_of(packet: &Packet) -> ObjId {
    ObjId(packet.get(Field::Inport) as u32)
}

// The port that a packet is to go out by.
fn outport_of(packet: &Packet) -> ObjId {
    ObjId(packet.get(Field::Outport) as u32)
}

// The node that the packet comes from, and its edge. It stands on the side of hosts: left of a switch, and right of a router.
fn put_first(
    pen: &mut Pen,
    records: &Records,
    dp: ObjId,
    port: ObjId,
    number: usize,
) -> Result<(), OutOfMemory> {
    pen.edges.extend_from_slice(
        b"    packet [shape=ellipse, color=\"#1f6f3f\", fontcolor=\"#1f6f3f\"];\n    ",
    )?;
    if is_switch(records, dp) {
        pen.edges.extend_from_slice(b"packet -> ")?;
        put_place(&mut pen.edges, records, dp, port, Side::Own)?;
        put_style(&mut pen.edges, b"dir=forward", number)
    } else {
        put_place(&mut pen.edges, records, dp, port, Side::Own)?;
        pen.edges.extend_from_slice(b" -> packet")?;
        put_style(&mut pen.edges, b"dir=back", number)
    }
}

// An edge from port to port, each with its datapath.
fn put_step(
    pen: &mut Pen,
    records: &Records,
    from: (ObjId, ObjId),
    to: (ObjId, ObjId),
    side: Side,
    number: usize,
) -> Result<(), OutOfMemory> {
    pen.edges.extend_from_slice(b"    ")?;
    put_place(&mut pen.edges, records, from.0, from.1, side)?;
    pen.edges.extend_from_slice(b" -> ")?;
    put_place(&mut pen.edges, records, to.0, to.1, side)?;
    put_style(&mut pen.edges, b"constraint=false", number)
}

fn put_style(out: &mut Vec<u8>, more: &[u8], number: usize) -> Result<(), OutOfMemory> {
    out.extend_from_slice(b" [color=\"#1f6f3f\", fontcolor=\"#1f6f3f\", penwidth=2, ")?;
    out.extend_from_slice(more)?;
    out.extend_from_slice(b", label=\"")?;
    put_dec(out, number as u128)?;
    out.extend_from_slice(b"\"];\n")?;
    Ok(())
}

// The lines of an edge: its number and the header fields of the packet that are not as they were, a line each. None where all are.
fn put_changes(
    alloc: Global,
    pen: &mut Pen,
    number: usize,
    before: &Packet,
    after: &Packet,
) -> Result<(), OutOfMemory> {
    let mut text = Vec::new(alloc);
    put_packet(&mut text, &changes(before, after))?;
    if text.as_slice() == b"1".as_slice() {
        return Ok(());
    }
    put_dec(&mut pen.lines, number as u128)?;
    pen.lines.extend_from_slice(b":\\l")?;
    put_lines(&mut pen.lines, &text)
}

// Of a packet the header fields that are not as in another, and 0 in the place of all others.
fn changes(before: &Packet, after: &Packet) -> Packet {
    let mut changes = Packet::zero();
    for field in Field::all() {
        if field.is_header() && before.get(*field) != after.get(*field) {
            changes.set(*field, after.get(*field));
        }
    }
    changes
}

// The conditions of a packet's text, each on a line of its own.
fn put_lines(out: &mut Vec<u8>, text: &[u8]) -> Result<(), OutOfMemory> {
    for part in text.split(|byte| *byte == b'&') {
        let part = part.trim_ascii();
        if !part.is_empty() {
            out.extend_from_slice(b"   ")?;
            put_escaped(out, part)?;
            out.extend_from_slice(b"\\l")?;
        }
    }
    Ok(())
}

// An end of the way, and the edge to it from where the packet is.
fn end(
    alloc: Global,
    pen: &mut Pen,
    records: &Records,
    here: &mut Here,
    end: End,
    packet: &Packet,
) -> Result<(), OutOfMemory> {
    here.edges = here.edges.saturating_add(1);
    put_end(&mut pen.edges, records, here.dp, here.port, here.edges, end)?;
    put_changes(alloc, pen, here.edges, &here.now, packet)
}

// The note with the lines of all edges, where there are any.
fn put_note(out: &mut Vec<u8>, lines: &[u8]) -> Result<(), OutOfMemory> {
    if lines.is_empty() {
        return Ok(());
    }
    out.extend_from_slice(
        b"    way [shape=note, color=\"#1f6f3f\", fontcolor=\"#1f6f3f\", label=\"",
    )?;
    out.extend_from_slice(lines)?;
    out.extend_from_slice(b"\"];\n")?;
    Ok(())
}
