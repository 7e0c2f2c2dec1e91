//! The events of a trace, each row among them as it was watched.
use crate::causes::sentence;
use crate::names::{put_datapath, put_port};
use crate::page::{Ink, Page, Paragraph};
use crate::short::put_short;
use crate::steps::Steps;
use nb_store::Records;
use net_meaning::Cause;
use nv_base::{ObjId, OutOfMemory};
use pkt_core::{Packet, put_packet};
use std::alloc::Global;
use tr_walk::Event;

/// Appends a trace in words (modelled on ovn-trace(8), `--detailed`): for each hit what was watched of its row, for what becomes of packets
/// a sentence, and last in one line what became of the packet that was traced. The records are those of the network in which it was. After
/// `OutOfMemory` the bytes before are first, and a part of the words may follow.
pub fn put_events(
    alloc: Global,
    out: &mut Vec<u8>,
    records: &Records,
    events: &[Event],
    steps: &Steps,
) -> Result<(), OutOfMemory> {
    let page = steps.page();
    let mut hits: usize = 0;
    for event in events {
        match event {
            Event::Hit(_) => {
                out.extend_from_slice(steps.text_of(hits))?;
                hits = hits.saturating_add(1);
            }
            Event::Output(port, parcel) => {
                put_output(alloc, out, page, records, *port, parcel.packet())?;
            }
            Event::Drop(dp, cause) => put_drop(alloc, out, page, records, *dp, *cause)?,
            Event::Reject(port) => put_reject(alloc, out, page, records, *port)?,
            Event::HopLimit(port) => put_hop_limit(alloc, out, page, records, *port)?,
        }
    }
    put_end(alloc, out, page, records, events)
}

// An output, with the packet.
fn put_output(
    alloc: Global,
    out: &mut Vec<u8>,
    page: Page,
    records: &Records,
    port: ObjId,
    packet: &Packet,
) -> Result<(), OutOfMemory> {
    let mut text = Vec::new(alloc);
    text.extend_from_slice(b"*** output by ")?;
    put_port(&mut text, records, port)?;
    text.extend_from_slice(b": ")?;
    put_packet(&mut text, packet)?;
    put_ending(out, page, Ink::Output, &text)
}

fn put_drop(
    alloc: Global,
    out: &mut Vec<u8>,
    page: Page,
    records: &Records,
    dp: ObjId,
    cause: Cause,
) -> Result<(), OutOfMemory> {
    let mut text = Vec::new(alloc);
    text.extend_from_slice(b"*** dropped on ")?;
    put_datapath(&mut text, records, dp)?;
    text.extend_from_slice(b": ")?;
    text.extend_from_slice(sentence(cause))?;
    text.extend_from_slice(b" (")?;
    text.extend_from_slice(cause.name().as_bytes())?;
    text.push(b')')?;
    put_ending(out, page, Ink::Drop, &text)
}

fn put_reject(
    alloc: Global,
    out: &mut Vec<u8>,
    page: Page,
    records: &Records,
    port: ObjId,
) -> Result<(), OutOfMemory> {
    let mut text = Vec::new(alloc);
    text.extend_from_slice(b"*** rejected: what answers it begins at ")?;
    put_port(&mut text, records, port)?;
    put_ending(out, page, Ink::Drop, &text)
}

fn put_hop_limit(
    alloc: Global,
    out: &mut Vec<u8>,
    page: Page,
    records: &Records,
    port: ObjId,
) -> Result<(), OutOfMemory> {
    let mut text = Vec::new(alloc);
    text.extend_from_slice(b"*** out of hops: it would take one more at ")?;
    put_port(&mut text, records, port)?;
    put_ending(out, page, Ink::Drop, &text)
}

fn put_ending(out: &mut Vec<u8>, page: Page, ink: Ink, text: &[u8]) -> Result<(), OutOfMemory> {
    let lines = Paragraph {
        ink,
        first: 4,
        others: 8,
    };
    page.put(out, lines, text)
}

// The last line.
fn put_end(
    alloc: Global,
    out: &mut Vec<u8>,
    page: Page,
    records: &Records,
    events: &[Event],
) -> Result<(), OutOfMemory> {
    let mut text = Vec::new(alloc);
    text.extend_from_slice(b"=> ")?;
    put_short(&mut text, records, events)?;
    let lines = Paragraph {
        ink: Ink::Heading,
        first: 0,
        others: 3,
    };
    out.push(b'\n')?;
    page.put(out, lines, &text)
}
