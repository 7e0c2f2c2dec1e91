//! Switches and their ports.
use crate::acls::put_acls;
use crate::balancers::put_attached;
use crate::objects::{put_heading, put_number, put_state};
use crate::quoted::put_list;
use nb_records::{Port, PortKind, Switch};
use nb_store::Records;
use nv_base::{ObjId, OutOfMemory};
use std::alloc::Global;

/// Appends all switches.
pub(crate) fn put_switches(
    alloc: Global,
    out: &mut Vec<u8>,
    records: &Records,
) -> Result<(), OutOfMemory> {
    let mut last = None;
    for _ in 0..records.switches().count() {
        let Some(switch) = records.switches().after(last) else {
            break;
        };
        put_switch(alloc, out, records, switch)?;
        last = Some(switch.id);
    }
    Ok(())
}

fn put_switch(
    alloc: Global,
    out: &mut Vec<u8>,
    records: &Records,
    switch: &Switch,
) -> Result<(), OutOfMemory> {
    put_heading(out, b"switch ", switch.id, &switch.name)?;
    put_ports(out, records, switch.id)?;
    put_attached(out, records, switch.lbs.as_slice())?;
    put_acls(alloc, out, records, switch.id)?;
    Ok(())
}

// The ports of a switch.
fn put_ports(out: &mut Vec<u8>, records: &Records, switch: ObjId) -> Result<(), OutOfMemory> {
    let mut last = None;
    for _ in 0..records.ports().count() {
        let Some(port) = records.port_on(switch, last) else {
            break;
        };
        put_port(out, records, port)?;
        last = Some(port.id);
    }
    Ok(())
}

fn put_port(out: &mut Vec<u8>, records: &Records, port: &Port) -> Result<(), OutOfMemory> {
    put_heading(out, b"    port ", port.id, &port.name)?;
    put_kind(out, port.kind)?;
    put_list(out, b"        addresses", port.addresses.as_slice())?;
    put_router_port(out, records, port)?;
    put_list(out, b"        port security", port.security.as_slice())?;
    put_state(out, port.enabled)?;
    Ok(())
}

// The type of a port, where it has one.
fn put_kind(out: &mut Vec<u8>, kind: PortKind) -> Result<(), OutOfMemory> {
    match kind {
        PortKind::Host => Ok(()),
        PortKind::Router => Ok(out.extend_from_slice(b"        type: router\n")?),
    }
}

// The option `router-port` of a port, where it has one.
fn put_router_port(out: &mut Vec<u8>, records: &Records, port: &Port) -> Result<(), OutOfMemory> {
    let Some(name) = &port.router_port else {
        return Ok(());
    };
    out.extend_from_slice(b"        router-port: ")?;
    out.extend_from_slice(name.as_slice())?;
    put_peer(out, records.peer_of_port(port.id))?;
    Ok(())
}

/// Ends the line of a port's peer with its number, or says that it has none.
pub(crate) fn put_peer(out: &mut Vec<u8>, peer: Option<ObjId>) -> Result<(), OutOfMemory> {
    match peer {
        Some(peer) => {
            put_number(out, b"port ", peer)?;
            out.extend_from_slice(b"]\n")?;
        }
        None => out.extend_from_slice(b" [no peer]\n")?,
    }
    Ok(())
}
