//! The routes and the NAT rules of a router.
use crate::columns::{fill, put_right};
use crate::objects::put_number;
use nb_records::{Nat, NatKind, Route, RouteBy};
use nb_store::Records;
use nb_text::{Word, nat_kind_text, put_word};
use nv_base::{Ip4, ObjId, OutOfMemory, Prefix, put_ip4, put_prefix};
use std::alloc::Global;

/// Appends the routes of a router, those of the longest prefixes first (ovn-nbctl(8), `lr-route-list`).
pub(crate) fn put_routes(
    alloc: Global,
    out: &mut Vec<u8>,
    records: &Records,
    router: ObjId,
) -> Result<(), OutOfMemory> {
    let routes = routes_of(alloc, records, router)?;
    if !routes.is_empty() {
        out.extend_from_slice(b"    IPv4 Routes\n")?;
    }
    for route in &routes {
        put_route(alloc, out, route)?;
    }
    Ok(())
}

fn routes_of(alloc: Global, records: &Records, router: ObjId) -> Result<Vec<&Route>, OutOfMemory> {
    let mut routes = Vec::new(alloc);
    let mut last = None;
    for _ in 0..records.routes().count() {
        let Some(route) = records.route_of(router, last) else {
            break;
        };
        routes.push(route)?;
        last = Some(route.id);
    }
    routes.sort_by_key(|route| {
        (
            32u8.saturating_sub(route.prefix.len),
            route.prefix.base,
            route.id,
        )
    })?;
    Ok(routes)
}

fn put_route(alloc: Global, out: &mut Vec<u8>, route: &Route) -> Result<(), OutOfMemory> {
    put_prefix_column(alloc, out, route.prefix)?;
    put_ip4_column(alloc, out, route.nexthop)?;
    out.extend_from_slice(policy_text(route.by).as_bytes())?;
    if let Some(port) = &route.port {
        put_word(out, port.as_slice())?;
    }
    put_number(out, b"route ", route.id)?;
    out.extend_from_slice(b"]\n")?;
    Ok(())
}

// A network at the right of a column.
fn put_prefix_column(alloc: Global, out: &mut Vec<u8>, prefix: Prefix) -> Result<(), OutOfMemory> {
    let mut text = Vec::new(alloc);
    put_prefix(&mut text, prefix)?;
    put_right(out, 29, &text)
}

// An address at the right of a column, and a space.
fn put_ip4_column(alloc: Global, out: &mut Vec<u8>, addr: Ip4) -> Result<(), OutOfMemory> {
    let mut text = Vec::new(alloc);
    put_ip4(&mut text, addr)?;
    put_right(out, 26, &text)?;
    out.push(b' ')?;
    Ok(())
}

fn policy_text(by: RouteBy) -> &'static str {
    match by {
        RouteBy::Dst => "dst-ip",
        RouteBy::Src => "src-ip",
    }
}

/// Appends the NAT rules of a router by their types (ovn-nbctl(8), `lr-nat-list`), without the columns that are always empty here.
pub(crate) fn put_nats(
    alloc: Global,
    out: &mut Vec<u8>,
    records: &Records,
    router: ObjId,
) -> Result<(), OutOfMemory> {
    let nats = nats_of(alloc, records, router)?;
    if !nats.is_empty() {
        out.extend_from_slice(b"    TYPE             EXTERNAL_IP        LOGICAL_IP\n")?;
    }
    for nat in &nats {
        put_nat(out, nat)?;
    }
    Ok(())
}

fn nats_of(alloc: Global, records: &Records, router: ObjId) -> Result<Vec<&Nat>, OutOfMemory> {
    let mut nats = Vec::new(alloc);
    let mut last = None;
    for _ in 0..records.nats().count() {
        let Some(nat) = records.nat_of(router, last) else {
            break;
        };
        nats.push(nat)?;
        last = Some(nat.id);
    }
    nats.sort_by_key(|nat| (place_of(nat.kind), nat.external, nat.id))?;
    Ok(nats)
}

// The place of a type among the others: their texts rise.
fn place_of(kind: NatKind) -> u8 {
    match kind {
        NatKind::Dnat => 0,
        NatKind::DnatAndSnat => 1,
        NatKind::Snat => 2,
    }
}

fn put_nat(out: &mut Vec<u8>, nat: &Nat) -> Result<(), OutOfMemory> {
    out.extend_from_slice(b"    ")?;
    put_nat_kind(out, nat.kind)?;
    put_external(out, nat.external)?;
    nat.logical.put(out)?;
    put_number(out, b"nat ", nat.id)?;
    out.extend_from_slice(b"]\n")?;
    Ok(())
}

// The type of a NAT rule, in its column.
fn put_nat_kind(out: &mut Vec<u8>, kind: NatKind) -> Result<(), OutOfMemory> {
    let start = out.len();
    out.extend_from_slice(nat_kind_text(kind).as_bytes())?;
    fill(out, start, 16)
}

// The external address of a NAT rule, in its column.
fn put_external(out: &mut Vec<u8>, addr: Ip4) -> Result<(), OutOfMemory> {
    let start = out.len();
    put_ip4(out, addr)?;
    fill(out, start, 18)
}
