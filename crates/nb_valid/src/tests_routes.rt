//! The tests of the edits of routes, NAT rules and static bindings.
ghost use Rattle.std.specs.Prelude.{IfOk, IfErr, None, Some};
ghost use Rattle.nb_records.specs.declared.edit.Edit.TheVariants as edit;
ghost use Rattle.nb_model.specs.Sound.{IsSound};
ghost use Rattle.nb_valid.specs.Tested.{Passes};
ghost use Rattle.nb_valid.specs.inner.Refused.{Refuses};

use nb_find::{
    Wanted, binding_like, has_nat, has_route, may_name_router_port, nat_like, no_duplicate,
    policy_or, route_like, wants, with_some,
};
use nb_records::{Edit, NatKind, Refusal, RouteBy};
use nb_store::Records;
use nv_base::{Ip4, Mac, Name, Prefix};

/// `lr-route-add`: the router is there, and a port that is named, and no route like it.
pub(crate) fn test_lr_route_add(
    records: &Records,
    router: Name,
    prefix: Prefix,
    nexthop: Ip4,
    port: Option<Name>,
    by: Option<RouteBy>,
) -> Result<Edit, Refusal>
    ensures ok { IfOk result (Passes records.now (edit.LrRouteAdd router prefix nexthop port by)) }
    ensures refused { IfErr result (Refuses records.now (edit.LrRouteAdd router prefix nexthop port by)) }
{
    let router = wants(records, Wanted::Router, router)?;
    let port = may_name_router_port(records, port)?;
    no_duplicate(route_like(records, &router, prefix, policy_or(by)))?;
    Ok(Edit::LrRouteAdd {
        router,
        prefix,
        nexthop,
        port,
        by,
    })
}

/// `lr-route-del`
pub(crate) fn test_lr_route_del(
    records: &Records,
    router: Name,
    prefix: Option<Prefix>,
    if_exists: bool,
    by: Option<RouteBy>,
) -> Result<Edit, Refusal>
    ensures ok { IfOk result (Passes records.now (edit.LrRouteDel router prefix if_exists by)) }
    ensures refused { IfErr result (Refuses records.now (edit.LrRouteDel router prefix if_exists by)) }
{
    match prefix {
        None => test_routes_del(records, router, if_exists, by),
        Some(prefix) => test_route_del(records, router, prefix, if_exists, by),
    }
}

// `lr-route-del` of all routes: the router is there.
fn test_routes_del(
    records: &Records,
    router: Name,
    if_exists: bool,
    by: Option<RouteBy>,
) -> Result<Edit, Refusal>
    ensures ok { IfOk result (Passes records.now (edit.LrRouteDel router None if_exists by)) }
    ensures refused { IfErr result (Refuses records.now (edit.LrRouteDel router None if_exists by)) }
{
    let router = wants(records, Wanted::Router, router)?;
    Ok(Edit::LrRouteDel {
        router,
        prefix: None,
        if_exists,
        by,
    })
}

// `lr-route-del` of a prefix: the router has a route for it, and of the policy where one is given.
fn test_route_del(
    records: &Records,
    router: Name,
    prefix: Prefix,
    if_exists: bool,
    by: Option<RouteBy>,
) -> Result<Edit, Refusal>
    ensures ok { IfOk result (Passes records.now (edit.LrRouteDel router (Some prefix) if_exists by)) }
    ensures refused { IfErr result (Refuses records.now (edit.LrRouteDel router (Some prefix) if_exists by)) }
{
    let router = wants(records, Wanted::Router, router)?;
    let there = has_route(records, &router, prefix, by);
    let router = with_some(router, if_exists, there)?;
    Ok(Edit::LrRouteDel {
        router,
        prefix: Some(prefix),
        if_exists,
        by,
    })
}

/// `lr-nat-add`: the router is there, and no rule like it.
pub(crate) fn test_lr_nat_add(
    records: &Records,
    router: Name,
    kind: NatKind,
    external: Ip4,
    logical: Prefix,
) -> Result<Edit, Refusal>
    ensures ok { IfOk result (Passes records.now (edit.LrNatAdd router kind external logical)) }
    ensures refused { IfErr result (Refuses records.now (edit.LrNatAdd router kind external logical)) }
{
    let router = wants(records, Wanted::Router, router)?;
    no_duplicate(nat_like(records, &router, kind, external, logical))?;
    Ok(Edit::LrNatAdd {
        router,
        kind,
        external,
        logical,
    })
}

/// `lr-nat-del`
pub(crate) fn test_lr_nat_del(
    records: &Records,
    router: Name,
    kind: Option<NatKind>,
    at: Option<Prefix>,
    if_exists: bool,
) -> Result<Edit, Refusal>
    requires { IsSound records.now }
    ensures ok { IfOk result (Passes records.now (edit.LrNatDel router kind at if_exists)) }
    ensures refused { IfErr result (Refuses records.now (edit.LrNatDel router kind at if_exists)) }
{
    match at {
        None => test_nats_del(records, router, kind, if_exists),
        Some(at) => test_nat_del(records, router, kind, at, if_exists),
    }
}

// `lr-nat-del` of all rules, or of those of a kind: the router is there.
fn test_nats_del(
    records: &Records,
    router: Name,
    kind: Option<NatKind>,
    if_exists: bool,
) -> Result<Edit, Refusal>
    ensures ok { IfOk result (Passes records.now (edit.LrNatDel router kind None if_exists)) }
    ensures refused { IfErr result (Refuses records.now (edit.LrNatDel router kind None if_exists)) }
{
    let router = wants(records, Wanted::Router, router)?;
    Ok(Edit::LrNatDel {
        router,
        kind,
        addr: None,
        if_exists,
    })
}

// `lr-nat-del` with an address: the router has a rule at it, and of the kind where one is given.
fn test_nat_del(
    records: &Records,
    router: Name,
    kind: Option<NatKind>,
    at: Prefix,
    if_exists: bool,
) -> Result<Edit, Refusal>
    requires { IsSound records.now }
    ensures ok { IfOk result (Passes records.now (edit.LrNatDel router kind (Some at) if_exists)) }
    ensures refused { IfErr result (Refuses records.now (edit.LrNatDel router kind (Some at) if_exists)) }
{
    let router = wants(records, Wanted::Router, router)?;
    let there = has_nat(records, &router, kind, at);
    let router = with_some(router, if_exists, there)?;
    Ok(Edit::LrNatDel {
        router,
        kind,
        addr: Some(at),
        if_exists,
    })
}

/// `smb-add`: the router port is there, and has no binding for the address.
pub(crate) fn test_smb_add(
    records: &Records,
    port: Name,
    addr: Ip4,
    mac: Mac,
) -> Result<Edit, Refusal>
    ensures ok { IfOk result (Passes records.now (edit.SmbAdd port addr mac)) }
    ensures refused { IfErr result (Refuses records.now (edit.SmbAdd port addr mac)) }
{
    let port = wants(records, Wanted::RouterPort, port)?;
    no_duplicate(binding_like(records, &port, addr))?;
    Ok(Edit::SmbAdd { port, addr, mac })
}

/// `smb-del`: the router port is there, and has a binding for the address.
pub(crate) fn test_smb_del(
    records: &Records,
    port: Name,
    addr: Ip4,
    if_exists: bool,
) -> Result<Edit, Refusal>
    ensures ok { IfOk result (Passes records.now (edit.SmbDel port addr if_exists)) }
    ensures refused { IfErr result (Refuses records.now (edit.SmbDel port addr if_exists)) }
{
    let port = wants(records, Wanted::RouterPort, port)?;
    let there = binding_like(records, &port, addr).is_some();
    let port = with_some(port, if_exists, there)?;
    Ok(Edit::SmbDel {
        port,
        addr,
        if_exists,
    })
}
