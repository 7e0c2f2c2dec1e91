//! Edits of what belongs to routers: routes, NAT rules and static bindings.
ghost use Rattle.std.specs.Prelude.{◌≡◌, ◌&&◌, OnOk, IsTrue};
ghost use Rattle.nb_records.specs.declared.edit.Edit.TheVariants as edit;
ghost use Rattle.nb_model.specs.Belongs.{same_route, same_nat};
ghost use Rattle.nb_model.specs.Effect.{effect, without};
ghost use Rattle.nb_model.specs.Network.{same};
ghost use Rattle.nb_model.specs.Readable.{are_apart};
ghost use Rattle.nb_model.specs.Sound.{IsSound};
ghost use Rattle.nv_table.specs.Table.{NumbersRise};
ghost use Rattle.nb_store.specs.Undo.{back_steps};
ghost use Rattle.nb_change.specs.inner.Routers.{is_route_for, is_nat_for};

use crate::one_each::{remove_nats_at, remove_routes_at};
use crate::owned::drop_each;
use nb_records::{Binding, Nat, NatKind, Route, RouteBy};
use nb_store::{Place, Work};
use nv_base::{Ip4, Mac, Name, ObjId, OutOfMemory, Prefix};
use std::alloc::Global;

/// `lr-route-add`
pub(crate) fn lr_route_add(
    work: &mut Work,
    alloc: Global,
    router: &Name,
    prefix: Prefix,
    nexthop: Ip4,
    port: Option<Name>,
    by: Option<RouteBy>,
) -> Result<(), OutOfMemory>
    requires sound { IsSound work.old.records }
    ensures ok { OnOk result (work.new.records ≡ effect work.old.records (edit.LrRouteAdd router.now prefix nexthop port by)) }
    ensures back { back_steps work.new.steps.items work.new.records ≡ back_steps work.old.steps.items work.old.records }
{
    let Some(router) = work.records.router_id(router) else {
        return Ok(());
    };
    let id = work.take_number()?;
    let by = by.unwrap_or(RouteBy::Dst);
    work.store_route(
        alloc,
        Route {
            id,
            router,
            by,
            prefix,
            nexthop,
            port,
        },
    )
}

/// `lr-nat-add`
pub(crate) fn lr_nat_add(
    work: &mut Work,
    alloc: Global,
    router: &Name,
    kind: NatKind,
    external: Ip4,
    logical: Prefix,
) -> Result<(), OutOfMemory>
    requires sound { IsSound work.old.records }
    ensures ok { OnOk result (work.new.records ≡ effect work.old.records (edit.LrNatAdd router.now kind external logical)) }
    ensures back { back_steps work.new.steps.items work.new.records ≡ back_steps work.old.steps.items work.old.records }
{
    let Some(router) = work.records.router_id(router) else {
        return Ok(());
    };
    let id = work.take_number()?;
    work.store_nat(
        alloc,
        Nat {
            id,
            router,
            kind,
            external,
            logical,
        },
    )
}

/// `static-mac-binding-add`
pub(crate) fn smb_add(
    work: &mut Work,
    alloc: Global,
    port: &Name,
    addr: Ip4,
    mac: Mac,
) -> Result<(), OutOfMemory>
    requires sound { IsSound work.old.records }
    ensures ok { OnOk result (work.new.records ≡ effect work.old.records (edit.SmbAdd port.now addr mac)) }
    ensures back { back_steps work.new.steps.items work.new.records ≡ back_steps work.old.steps.items work.old.records }
{
    let Some(port) = work.records.router_port_id(port) else {
        return Ok(());
    };
    let id = work.take_number()?;
    work.store_binding(
        alloc,
        Binding {
            id,
            port,
            addr,
            mac,
        },
    )
}

/// `static-mac-binding-del`
pub(crate) fn smb_del(
    work: &mut Work,
    port: &Name,
    addr: Ip4,
    if_exists: bool,
) -> Result<(), OutOfMemory>
    requires sound { IsSound work.old.records }
    ensures ok { OnOk result (work.new.records ≡ effect work.old.records (edit.SmbDel port.now addr if_exists)) }
    ensures back { back_steps work.new.steps.items work.new.records ≡ back_steps work.old.steps.items work.old.records }
{
    let Some(port) = work.records.router_port_id(port) else {
        return Ok(());
    };
    let Some(binding) = work.records.binding_saying(port, addr) else {
        return Ok(());
    };
    let id = binding.id;
    work.remove(Place::Binding(id))
}

/// `lr-route-del`
pub(crate) fn lr_route_del(
    work: &mut Work,
    router: &Name,
    prefix: Option<Prefix>,
    if_exists: bool,
    by: Option<RouteBy>,
) -> Result<(), OutOfMemory>
    requires sound { IsSound work.old.records }
    ensures ok { OnOk result (work.new.records ≡ effect work.old.records (edit.LrRouteDel router.now prefix if_exists by)) }
    ensures back { back_steps work.new.steps.items work.new.records ≡ back_steps work.old.steps.items work.old.records }
{
    match work.records.router_id(router) {
        Some(number) => remove_routes(work, number, prefix, by),
        None => Ok(()),
    }
}

/// `lr-nat-del`
pub(crate) fn lr_nat_del(
    work: &mut Work,
    router: &Name,
    kind: Option<NatKind>,
    at: Option<Prefix>,
    if_exists: bool,
) -> Result<(), OutOfMemory>
    requires sound { IsSound work.old.records }
    ensures ok { OnOk result (work.new.records ≡ effect work.old.records (edit.LrNatDel router.now kind at if_exists)) }
    ensures back { back_steps work.new.steps.items work.new.records ≡ back_steps work.old.steps.items work.old.records }
{
    match work.records.router_id(router) {
        Some(number) => remove_nats(work, number, kind, at),
        None => Ok(()),
    }
}

// Removes the routes of a router for a prefix and of a policy, where they are given.
fn remove_routes(
    work: &mut Work,
    router: ObjId,
    prefix: Option<Prefix>,
    by: Option<RouteBy>,
) -> Result<(), OutOfMemory>
    requires rise { NumbersRise (λ x. x.id) work.old.records.routes }
    requires apart { IsTrue (are_apart same_route work.old.records.routes) }
    ensures ok { OnOk result (work.new.records ≡ record work.old.records { routes = without (λ route. same router route.router && is_route_for prefix by route) work.old.records.routes }) }
    ensures back { back_steps work.new.steps.items work.new.records ≡ back_steps work.old.steps.items work.old.records }
{
    match prefix {
        Some(prefix) => remove_routes_at(work, router, prefix, by),
        None => drop_each::<Route, Option<RouteBy>>(work, router, &by),
    }
}

// Removes the NAT rules of a router of a kind and at a prefix, where they are given.
fn remove_nats(
    work: &mut Work,
    router: ObjId,
    kind: Option<NatKind>,
    at: Option<Prefix>,
) -> Result<(), OutOfMemory>
    requires rise { NumbersRise (λ x. x.id) work.old.records.nats }
    requires apart { IsTrue (are_apart same_nat work.old.records.nats) }
    ensures ok { OnOk result (work.new.records ≡ record work.old.records { nats = without (λ nat. same router nat.router && is_nat_for kind at nat) work.old.records.nats }) }
    ensures back { back_steps work.new.steps.items work.new.records ≡ back_steps work.old.steps.items work.old.records }
{
    match at {
        Some(at) => remove_nats_at(work, router, kind, at),
        None => drop_each::<Nat, Option<NatKind>>(work, router, &kind),
    }
}
