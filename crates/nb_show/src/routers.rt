//! Routers and their ports.
use crate::balancers::put_attached;
use crate::objects::{put_heading, put_state};
use crate::quoted::put_list;
use crate::rules::{put_nats, put_routes};
use crate::switches::put_peer;
use nb_records::{Binding, Router, RouterPort};
use nb_store::Records;
use nb_text::{put_ip4_word, put_mac_word};
use nv_base::{ObjId, OutOfMemory, put_dec, put_mac};
use std::alloc::Global;

/// Appends all routers.
pub(crate) fn put_routers(
    alloc: Global,
    out: &mut Vec<u8>,
    records: &Records,
) -> Result<(), OutOfMemory> {
    let mut last = None;
    for _ in 0..records.routers().count() {
        let Some(router) = records.routers().after(last) else {
            break;
        };
        put_router(alloc, out, records, router)?;
        last = Some(router.id);
    }
    Ok(())
}

fn put_router(
    alloc: Global,
    out: &mut Vec<u8>,
    records: &Records,
    router: &Router,
) -> Result<(), OutOfMemory> {
    put_heading(out, b"router ", router.id, &router.name)?;
    put_ports(out, records, router.id)?;
    put_routes(alloc, out, records, router.id)?;
    put_nats(alloc, out, records, router.id)?;
    put_attached(out, records, router.lbs.as_slice())?;
    Ok(())
}

// The ports of a router.
fn put_ports(out: &mut Vec<u8>, records: &Records, router: ObjId) -> Result<(), OutOfMemory> {
    let mut last = None;
    for _ in 0..records.router_ports().count() {
        let Some(port) = records.router_port_on(router, last) else {
            break;
        };
        put_port(out, records, port)?;
        last = Some(port.id);
    }
    Ok(())
}

fn put_port(out: &mut Vec<u8>, records: &Records, port: &RouterPort) -> Result<(), OutOfMemory> {
    put_heading(out, b"    port ", port.id, &port.name)?;
    out.extend_from_slice(b"        mac: \"")?;
    put_mac(out, port.mac)?;
    out.extend_from_slice(b"\"\n")?;
    put_list(out, b"        networks", port.nets.as_slice())?;
    put_peer_port(out, records, port)?;
    put_state(out, port.enabled)?;
    put_bindings(out, records, port.id)?;
    Ok(())
}

// The port of a switch at the other side, or that there is none.
fn put_peer_port(
    out: &mut Vec<u8>,
    records: &Records,
    port: &RouterPort,
) -> Result<(), OutOfMemory> {
    let Some(peer) = records.peer_port(port) else {
        return Ok(());
    };
    out.extend_from_slice(b"        switch port: ")?;
    out.extend_from_slice(peer.name.as_slice())?;
    put_peer(out, Some(peer.id))
}

// The static bindings of a router port.
fn put_bindings(out: &mut Vec<u8>, records: &Records, port: ObjId) -> Result<(), OutOfMemory> {
    let mut last = None;
    for _ in 0..records.bindings().count() {
        let Some(binding) = records.binding_of(port, last) else {
            break;
        };
        put_binding(out, binding)?;
        last = Some(binding.id);
    }
    Ok(())
}

fn put_binding(out: &mut Vec<u8>, binding: &Binding) -> Result<(), OutOfMemory> {
    out.extend_from_slice(b"        static MAC binding ")?;
    put_dec(out, u128::from(binding.id.0))?;
    out.push(b':')?;
    put_ip4_word(out, binding.addr)?;
    put_mac_word(out, binding.mac)?;
    out.push(b'\n')?;
    Ok(())
}
