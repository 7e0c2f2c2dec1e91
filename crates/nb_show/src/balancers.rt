//! Load balancers, and where they are attached.
use crate::columns::fill;
use crate::objects::{put_comma, put_heading, put_named};
use nb_records::{Frontend, Lb, Vip};
use nb_store::Records;
use nb_text::{proto_text, put_backends, put_service};
use nv_base::{ObjId, OutOfMemory};

/// Appends the line of the load balancers of a switch or a router, where it has any.
pub(crate) fn put_attached(
    out: &mut Vec<u8>,
    records: &Records,
    lbs: &[ObjId],
) -> Result<(), OutOfMemory> {
    if lbs.is_empty() {
        return Ok(());
    }
    out.extend_from_slice(b"    load balancers: ")?;
    put_lb_names(out, records, lbs)?;
    out.push(b'\n')?;
    Ok(())
}

fn put_lb_names(out: &mut Vec<u8>, records: &Records, lbs: &[ObjId]) -> Result<(), OutOfMemory> {
    let mut is_first = true;
    for number in lbs {
        if let Some(lb) = records.lbs().get(*number) {
            put_comma(out, is_first)?;
            put_named(out, lb.id, &lb.name)?;
            is_first = false;
        }
    }
    Ok(())
}

/// Appends all load balancers (ovn-nbctl(8), `lb-list`).
pub(crate) fn put_lbs(out: &mut Vec<u8>, records: &Records) -> Result<(), OutOfMemory> {
    let mut last = None;
    for _ in 0..records.lbs().count() {
        let Some(lb) = records.lbs().after(last) else {
            break;
        };
        put_lb(out, records, lb)?;
        last = Some(lb.id);
    }
    Ok(())
}

fn put_lb(out: &mut Vec<u8>, records: &Records, lb: &Lb) -> Result<(), OutOfMemory> {
    put_heading(out, b"load balancer ", lb.id, &lb.name)?;
    out.extend_from_slice(b"    PROTO      VIP                    IPs\n")?;
    for vip in lb.vips.as_slice() {
        put_vip(out, lb, vip)?;
    }
    put_holders(out, records, lb.id)
}

// A VIP. Its protocol counts where it has a port.
fn put_vip(out: &mut Vec<u8>, lb: &Lb, vip: &Vip) -> Result<(), OutOfMemory> {
    out.extend_from_slice(b"    ")?;
    put_proto(out, lb, vip.at)?;
    put_frontend(out, vip.at)?;
    put_backends(out, vip.backends.as_slice())?;
    out.push(b'\n')?;
    Ok(())
}

// The protocol of a VIP, in its column.
fn put_proto(out: &mut Vec<u8>, lb: &Lb, at: Frontend) -> Result<(), OutOfMemory> {
    let start = out.len();
    if at.port.is_some() {
        out.extend_from_slice(proto_text(lb.proto).as_bytes())?;
    }
    fill(out, start, 10)
}

// The address of a VIP, in its column.
fn put_frontend(out: &mut Vec<u8>, at: Frontend) -> Result<(), OutOfMemory> {
    let start = out.len();
    put_service(out, at.addr, at.port)?;
    fill(out, start, 22)
}

// Where a load balancer is attached, where it is anywhere.
fn put_holders(out: &mut Vec<u8>, records: &Records, lb: ObjId) -> Result<(), OutOfMemory> {
    let switch = records.switch_with(lb, None);
    let router = records.router_with(lb, None);
    if switch.is_none() && router.is_none() {
        return Ok(());
    }
    out.extend_from_slice(b"    attached to: ")?;
    put_switches_with(out, records, lb)?;
    put_comma(out, switch.is_none() || router.is_none())?;
    put_routers_with(out, records, lb)?;
    out.push(b'\n')?;
    Ok(())
}

fn put_switches_with(out: &mut Vec<u8>, records: &Records, lb: ObjId) -> Result<(), OutOfMemory> {
    let mut last = None;
    for _ in 0..records.switches().count() {
        let Some(switch) = records.switch_with(lb, last) else {
            break;
        };
        put_comma(out, last.is_none())?;
        out.extend_from_slice(b"switch ")?;
        put_named(out, switch.id, &switch.name)?;
        last = Some(switch.id);
    }
    Ok(())
}

fn put_routers_with(out: &mut Vec<u8>, records: &Records, lb: ObjId) -> Result<(), OutOfMemory> {
    let mut last = None;
    for _ in 0..records.routers().count() {
        let Some(router) = records.router_with(lb, last) else {
            break;
        };
        put_comma(out, last.is_none())?;
        out.extend_from_slice(b"router ")?;
        put_named(out, router.id, &router.name)?;
        last = Some(router.id);
    }
    Ok(())
}
