//! The whole graph.
use crate::boxes::{put_routers, put_switches};
use crate::links::put_links;
use crate::notes::{put_group_notes, put_switch_notes};
use crate::way::{Way, put_way};
use nb_store::Records;
use nv_base::OutOfMemory;
use std::alloc::Global;
use tr_walk::Event;

/// A traced packet, as it was watched, and the events of its trace.
#[derive(Clone, Copy)]
pub struct Traced<'t> {
    pub way: &'t Way,
    pub events: &'t [Event],
}

/// Appends a network as a graph in the language DOT of Graphviz (not from OVN): switches and routers as boxes with their ports, disabled
/// ports grey, edges for what leads where, ACLs and groups as notes; and the way of a traced packet where one is given, as numbered edges
/// with what was rewritten, a drop in red with its cause. The records are those of the network in which it was traced. After
/// `OutOfMemory` the bytes before are first, and a part of the graph may follow.
pub fn put_graph(
    alloc: Global,
    out: &mut Vec<u8>,
    records: &Records,
    traced: Option<Traced<'_>>,
) -> Result<(), OutOfMemory> {
    out.extend_from_slice(
        b"digraph network {\n    graph [rankdir=LR, nodesep=0.4, ranksep=0.8, fontname=\"Helvetica\"];\n",
    )?;
    out.extend_from_slice(b"    node [shape=plain, fontname=\"Helvetica\", fontsize=11];\n")?;
    out.extend_from_slice(b"    edge [fontname=\"Helvetica\", fontsize=10];\n")?;
    put_switches(alloc, out, records)?;
    put_routers(alloc, out, records)?;
    put_links(out, records)?;
    put_switch_notes(alloc, out, records)?;
    put_group_notes(alloc, out, records)?;
    if let Some(Traced { way, events }) = traced {
        put_way(alloc, out, records, way, events)?;
    }
    out.extend_from_slice(b"}\n")?;
    Ok(())
}
