//! Routes, NAT rules and static bindings that are there.
ghost use Rattle.std.specs.Prelude.{◌≡◌, ◌&&◌, ◌==◌, find, not, if◌then◌else◌, IfOk, IfErr, None, Some};
ghost use Rattle.std.specs.List.{list_any};
ghost use Rattle.std.specs.Option.{option_copied};
ghost use Rattle.nb_model.specs.Belongs.{is_snat, same_block, same_nat_kind, same_policy};
ghost use Rattle.nb_model.specs.Effect.{is_asked, is_nat, is_nat_at, is_route, policy_or};
ghost use Rattle.nb_model.specs.Network.{same};
ghost use Rattle.nb_model.specs.Sound.{IsSound};
ghost use Rattle.nb_model.specs.Tests.{may_name_router_port, route_like, nat_like, binding_like};

use crate::names::{Wanted, wants};
use nb_records::{Nat, NatKind, Refusal, RouteBy};
use nb_store::Records;
use nv_base::{Ip4, Name, ObjId, Prefix};

/// The policy of a route where none is given.
pub fn policy_or(by: Option<RouteBy>) -> RouteBy
    ensures { result ≡ policy_or by }
{
    match by {
        None => RouteBy::Dst,
        Some(by) => by,
    }
}

/// The name that may be given, of a port of a router, else the refusal.
pub fn may_name_router_port(records: &Records, name: Option<Name>) -> Result<Option<Name>, Refusal>
    ensures ok { IfOk result (λ passed. (passed ≡ name) × (may_name_router_port records.now name ≡ None)) }
    ensures refused { IfErr result (λ refusal. may_name_router_port records.now name ≡ Some refusal) }
{
    match name {
        None => Ok(None),
        Some(name) => Ok(Some(wants(records, Wanted::RouterPort, name)?)),
    }
}

/// The number of the route that a new one would repeat.
pub fn route_like(records: &Records, router: &Name, prefix: Prefix, by: RouteBy) -> Option<ObjId>
    ensures { result ≡ route_like records.now router.now prefix by }
{
    match records.router_id(router) {
        None => None,
        Some(router) => Some(records.route_saying(router, by, prefix)?.id),
    }
}

// Whether the router has a route of this policy for the prefix.
fn has_route_by(records: &Records, router: ObjId, by: RouteBy, prefix: Prefix) -> bool
    ensures { result ≡ list_any (λ route. same router route.router && (same_block prefix route.prefix && same_policy by route.by)) records.now.routes }
{
    records.route_saying(router, by, prefix).is_some()
}

// Whether the router has a route for the prefix, and of the policy where one is given.
fn has_route_for(records: &Records, router: ObjId, prefix: Prefix, by: Option<RouteBy>) -> bool
    ensures { result ≡ list_any (λ route. same router route.router && (same_block prefix route.prefix && is_asked same_policy by route.by)) records.now.routes }
{
    match by {
        Some(by) => has_route_by(records, router, by, prefix),
        None => {
            has_route_by(records, router, RouteBy::Dst, prefix)
                || has_route_by(records, router, RouteBy::Src, prefix)
        }
    }
}

/// Whether the router of this name has a route for the prefix, and of the policy where one is given.
pub fn has_route(records: &Records, router: &Name, prefix: Prefix, by: Option<RouteBy>) -> bool
    ensures { result ≡ list_any (is_route records.now router.now (Some prefix) by) records.now.routes }
{
    match records.router_id(router) {
        None => false,
        Some(router) => has_route_for(records, router, prefix, by),
    }
}

// Whether two kinds of NAT rules are one.
fn same_nat_kind(a: NatKind, b: NatKind) -> bool
    ensures { result ≡ same_nat_kind a b }
{
    match a {
        NatKind::Snat => matches!(b, NatKind::Snat),
        NatKind::Dnat => matches!(b, NatKind::Dnat),
        NatKind::DnatAndSnat => matches!(b, NatKind::DnatAndSnat),
    }
}

// The rule that one of this kind at the address or the logical prefix would repeat.
fn nat_at(records: &Records, router: ObjId, kind: NatKind, at: Prefix) -> Option<&Nat>
    ensures { option_copied result ≡ find (λ nat. same router nat.router && (if is_snat kind then is_snat nat.kind && same_block at nat.logical else not (is_snat nat.kind) && (at.base.0 == nat.external.0))) records.now.nats }
{
    records.nat_saying(router, kind, at.base, at)
}

// Whether there is one.
fn has_nat_like(records: &Records, router: ObjId, kind: NatKind, at: Prefix) -> bool
    ensures { result ≡ list_any (λ nat. same router nat.router && (if is_snat kind then is_snat nat.kind && same_block at nat.logical else not (is_snat nat.kind) && (at.base.0 == nat.external.0))) records.now.nats }
{
    nat_at(records, router, kind, at).is_some()
}

// Whether the router has a rule of this kind at the address or the logical prefix.
fn has_nat_of(records: &Records, router: ObjId, kind: NatKind, at: Prefix) -> bool
    requires { IsSound records.now }
    ensures { result ≡ list_any (λ nat. same router nat.router && (same_nat_kind kind nat.kind && is_nat_at nat at)) records.now.nats }
{
    match nat_at(records, router, kind, at) {
        None => false,
        Some(nat) => same_nat_kind(kind, nat.kind),
    }
}

// Whether the router has a rule at the address or the logical prefix, and of the kind where one is given.
fn has_nat_for(records: &Records, router: ObjId, kind: Option<NatKind>, at: Prefix) -> bool
    requires { IsSound records.now }
    ensures { result ≡ list_any (λ nat. same router nat.router && (is_asked same_nat_kind kind nat.kind && is_nat_at nat at)) records.now.nats }
{
    match kind {
        Some(kind) => has_nat_of(records, router, kind, at),
        None => has_nat_like(records, router, NatKind::Snat, at)
            || has_nat_like(records, router, NatKind::Dnat, at),
    }
}

/// Whether the router of this name has a rule at the address or the logical prefix, and of the kind where one is given.
pub fn has_nat(records: &Records, router: &Name, kind: Option<NatKind>, at: Prefix) -> bool
    requires { IsSound records.now }
    ensures { result ≡ list_any (is_nat records.now router.now kind (Some at)) records.now.nats }
{
    match records.router_id(router) {
        None => false,
        Some(router) => has_nat_for(records, router, kind, at),
    }
}

/// The number of the rule that a new one would repeat.
pub fn nat_like(
    records: &Records,
    router: &Name,
    kind: NatKind,
    external: Ip4,
    logical: Prefix,
) -> Option<ObjId>
    ensures { result ≡ nat_like records.now router.now kind external logical }
{
    match records.router_id(router) {
        None => None,
        Some(router) => Some(records.nat_saying(router, kind, external, logical)?.id),
    }
}

/// The number of the binding of the router port for the address.
pub fn binding_like(records: &Records, port: &Name, addr: Ip4) -> Option<ObjId>
    ensures { result ≡ binding_like records.now port.now addr }
{
    match records.router_port_id(port) {
        None => None,
        Some(port) => Some(records.binding_saying(port, addr)?.id),
    }
}
