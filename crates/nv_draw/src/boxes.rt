//! Switches and routers, as boxes with a cell for each port.
use crate::text::{put_html, put_node};
use nb_records::{Addr, Port, RouterPort};
use nb_store::Records;
use nb_text::put_each;
use nv_base::{Name, ObjId, OutOfMemory, put_mac, put_prefix};
use std::alloc::Global;

/// Appends the boxes of all switches.
pub(crate) fn put_switches(
    alloc: Global,
    out: &mut Vec<u8>,
    records: &Records,
) -> Result<(), OutOfMemory> {
    let mut last = None;
    for _ in 0..records.switches().count() {
        let Some(switch) = records.switches().after(last) else {
            break;
        };
        put_start(out, switch.id, &switch.name, b"switch", b"#d6e6f5")?;
        put_ports(alloc, out, records, switch.id)?;
        put_end(out)?;
        last = Some(switch.id);
    }
    Ok(())
}

/// Appends the boxes of all routers.
pub(crate) fn put_routers(
    alloc: Global,
    out: &mut Vec<u8>,
    records: &Records,
) -> Result<(), OutOfMemory> {
    let mut last = None;
    for _ in 0..records.routers().count() {
        let Some(router) = records.routers().after(last) else {
            break;
        };
        put_start(out, router.id, &router.name, b"router", b"#f5e0c8")?;
        put_router_ports(alloc, out, records, router.id)?;
        put_end(out)?;
        last = Some(router.id);
    }
    Ok(())
}

// The start of a box, with its name.
fn put_start(
    out: &mut Vec<u8>,
    number: ObjId,
    name: &Name,
    kind: &[u8],
    colour: &[u8],
) -> Result<(), OutOfMemory> {
    out.extend_from_slice(b"    ")?;
    put_node(out, b'd', number)?;
    out.extend_from_slice(
        b" [label=<<table border=\"0\" cellborder=\"1\" cellspacing=\"0\" cellpadding=\"5\"><tr><td bgcolor=\"",
    )?;
    out.extend_from_slice(colour)?;
    out.extend_from_slice(b"\"><b>")?;
    put_html(out, name.as_slice())?;
    out.extend_from_slice(b"</b><br/>")?;
    out.extend_from_slice(kind)?;
    out.extend_from_slice(b"</td></tr>\n")?;
    Ok(())
}

fn put_end(out: &mut Vec<u8>) -> Result<(), OutOfMemory> {
    out.extend_from_slice(b"    </table>>];\n")?;
    Ok(())
}

fn put_ports(
    alloc: Global,
    out: &mut Vec<u8>,
    records: &Records,
    switch: ObjId,
) -> Result<(), OutOfMemory> {
    let mut last = None;
    for _ in 0..records.ports().count() {
        let Some(port) = records.port_on(switch, last) else {
            break;
        };
        put_port(alloc, out, port)?;
        last = Some(port.id);
    }
    Ok(())
}

fn put_port(alloc: Global, out: &mut Vec<u8>, port: &Port) -> Result<(), OutOfMemory> {
    put_cell_start(out, port.id, &port.name, port.enabled)?;
    for addr in port.addresses.as_slice() {
        let mut text = Vec::new(alloc);
        put_addr(&mut text, addr)?;
        put_small(out, &text)?;
    }
    put_cell_end(out, port.enabled)
}

fn put_addr(out: &mut Vec<u8>, addr: &Addr) -> Result<(), OutOfMemory> {
    match addr {
        Addr::Unknown => out.extend_from_slice(b"unknown")?,
        Addr::Router => out.extend_from_slice(b"router")?,
        Addr::Host { mac, ips } => {
            put_mac(out, *mac)?;
            put_each(out, ips.as_slice())?;
        }
    }
    Ok(())
}

fn put_router_ports(
    alloc: Global,
    out: &mut Vec<u8>,
    records: &Records,
    router: ObjId,
) -> Result<(), OutOfMemory> {
    let mut last = None;
    for _ in 0..records.router_ports().count() {
        let Some(port) = records.router_port_on(router, last) else {
            break;
        };
        put_router_port(alloc, out, port)?;
        last = Some(port.id);
    }
    Ok(())
}

fn put_router_port(alloc: Global, out: &mut Vec<u8>, port: &RouterPort) -> Result<(), OutOfMemory> {
    put_cell_start(out, port.id, &port.name, port.enabled)?;
    let mut text = Vec::new(alloc);
    put_mac(&mut text, port.mac)?;
    for net in port.nets.as_slice() {
        text.push(b' ')?;
        put_prefix(&mut text, *net)?;
    }
    put_small(out, &text)?;
    put_cell_end(out, port.enabled)
}

// The cell of a port, up to its name; that of a disabled port is grey.
fn put_cell_start(
    out: &mut Vec<u8>,
    number: ObjId,
    name: &Name,
    enabled: bool,
) -> Result<(), OutOfMemory> {
    out.extend_from_slice(b"        <tr><td port=\"")?;
    put_node(out, b'p', number)?;
    if enabled {
        out.extend_from_slice(b"\">")?;
    } else {
        out.extend_from_slice(b"\" bgcolor=\"#c8c8c8\">")?;
    }
    put_html(out, name.as_slice())
}

fn put_cell_end(out: &mut Vec<u8>, enabled: bool) -> Result<(), OutOfMemory> {
    if !enabled {
        put_small(out, b"disabled")?;
    }
    out.extend_from_slice(b"</td></tr>\n")?;
    Ok(())
}

// A line of a cell, in small letters.
fn put_small(out: &mut Vec<u8>, text: &[u8]) -> Result<(), OutOfMemory> {
    out.extend_from_slice(b"<br/><font point-size=\"9\">")?;
    put_html(out, text)?;
    out.extend_from_slice(b"</font>")?;
    Ok(())
}
