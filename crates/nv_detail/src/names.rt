//! Objects as they are told: by their names, in quotes.
use nb_store::Records;
use nv_base::{ObjId, OutOfMemory};

/// Appends the name of a switch or a router, in quotes.
pub(crate) fn put_datapath(
    out: &mut Vec<u8>,
    records: &Records,
    number: ObjId,
) -> Result<(), OutOfMemory> {
    put_quoted(out, datapath_name(records, number))
}

/// Appends the name of a port of a switch or of a router, in quotes.
pub(crate) fn put_port(
    out: &mut Vec<u8>,
    records: &Records,
    number: ObjId,
) -> Result<(), OutOfMemory> {
    put_quoted(out, port_name(records, number))
}

/// Whether a port has this number.
pub(crate) fn is_port(records: &Records, number: ObjId) -> bool {
    records.ports().get(number).is_some() || records.router_ports().get(number).is_some()
}

fn datapath_name(records: &Records, number: ObjId) -> &[u8] {
    if let Some(switch) = records.switches().get(number) {
        return switch.name.as_slice();
    }
    match records.routers().get(number) {
        Some(router) => router.name.as_slice(),
        None => b"",
    }
}

fn port_name(records: &Records, number: ObjId) -> &[u8] {
    if let Some(port) = records.ports().get(number) {
        return port.name.as_slice();
    }
    match records.router_ports().get(number) {
        Some(port) => port.name.as_slice(),
        None => b"",
    }
}

fn put_quoted(out: &mut Vec<u8>, name: &[u8]) -> Result<(), OutOfMemory> {
    out.push(b'"')?;
    out.extend_from_slice(name)?;
    out.push(b'"')?;
    Ok(())
}
