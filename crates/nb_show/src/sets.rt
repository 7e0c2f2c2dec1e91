//! Address sets and port groups.
use crate::acls::put_acls;
use crate::objects::{put_comma, put_heading, put_named};
use crate::quoted::put_list;
use nb_records::{AddrSet, Group, Numbers};
use nb_store::Records;
use nv_base::OutOfMemory;
use std::alloc::Global;

/// Appends all address sets.
pub(crate) fn put_sets(out: &mut Vec<u8>, records: &Records) -> Result<(), OutOfMemory> {
    let mut last = None;
    for _ in 0..records.sets().count() {
        let Some(set) = records.sets().after(last) else {
            break;
        };
        put_set(out, set)?;
        last = Some(set.id);
    }
    Ok(())
}

fn put_set(out: &mut Vec<u8>, set: &AddrSet) -> Result<(), OutOfMemory> {
    put_heading(out, b"address set ", set.id, &set.name)?;
    put_list(out, b"    addresses", set.members.as_slice())
}

/// Appends all port groups.
pub(crate) fn put_groups(
    alloc: Global,
    out: &mut Vec<u8>,
    records: &Records,
) -> Result<(), OutOfMemory> {
    let mut last = None;
    for _ in 0..records.groups().count() {
        let Some(group) = records.groups().after(last) else {
            break;
        };
        put_group(alloc, out, records, group)?;
        last = Some(group.id);
    }
    Ok(())
}

fn put_group(
    alloc: Global,
    out: &mut Vec<u8>,
    records: &Records,
    group: &Group,
) -> Result<(), OutOfMemory> {
    put_heading(out, b"port group ", group.id, &group.name)?;
    put_ports(out, records, &group.ports)?;
    put_acls(alloc, out, records, group.id)?;
    Ok(())
}

// The ports of a group that has any.
fn put_ports(out: &mut Vec<u8>, records: &Records, ports: &Numbers) -> Result<(), OutOfMemory> {
    if ports.is_empty() {
        return Ok(());
    }
    out.extend_from_slice(b"    ports: ")?;
    put_port_names(out, records, ports)?;
    out.push(b'\n')?;
    Ok(())
}

fn put_port_names(
    out: &mut Vec<u8>,
    records: &Records,
    ports: &Numbers,
) -> Result<(), OutOfMemory> {
    let mut is_first = true;
    for at in 0..ports.len() {
        if let Some(port) = records.ports().get(ports.number_at(at)) {
            put_comma(out, is_first)?;
            put_named(out, port.id, &port.name)?;
            is_first = false;
        }
    }
    Ok(())
}
