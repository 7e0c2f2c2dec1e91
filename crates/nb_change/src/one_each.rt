//! Routes and NAT rules of a router that a command asks to remove at one prefix. There are few, and each is looked up.
ghost use Rattle.std.specs.Prelude.{◌≡◌, ◌&&◌, Some, OnOk, IsTrue};
ghost use Rattle.nb_model.specs.Belongs.{same_route, same_nat, same_nat_kind};
ghost use Rattle.nb_model.specs.Effect.{without, is_asked};
ghost use Rattle.nb_model.specs.Network.{same};
ghost use Rattle.nb_model.specs.Readable.{are_apart};
ghost use Rattle.nv_table.specs.Table.{NumbersRise};
ghost use Rattle.nb_store.specs.Undo.{back_steps};
ghost use Rattle.nb_change.specs.inner.Routers.{is_route_for, is_nat_for, is_nat_like};

use crate::owned::{Test, remove_if};
use nb_records::{NatKind, RouteBy};
use nb_store::{Place, Work};
use nv_base::{ObjId, OutOfMemory, Prefix};

/// Removes the routes of a router for a prefix, and of a policy where one is given.
pub(crate) fn remove_routes_at(
    work: &mut Work,
    router: ObjId,
    prefix: Prefix,
    by: Option<RouteBy>,
) -> Result<(), OutOfMemory>
    requires rise { NumbersRise (λ x. x.id) work.old.records.routes }
    requires apart { IsTrue (are_apart same_route work.old.records.routes) }
    ensures ok { OnOk result (work.new.records ≡ record work.old.records { routes = without (λ route. same router route.router && is_route_for (Some prefix) by route) work.old.records.routes }) }
    ensures back { back_steps work.new.steps.items work.new.records ≡ back_steps work.old.steps.items work.old.records }
{
    match by {
        Some(by) => remove_route(work, router, prefix, by),
        None => {
            remove_route(work, router, prefix, RouteBy::Dst)?;
            remove_route(work, router, prefix, RouteBy::Src)
        }
    }
}

// Removes the route of a router for a prefix and of a policy, if it is there.
fn remove_route(
    work: &mut Work,
    router: ObjId,
    prefix: Prefix,
    by: RouteBy,
) -> Result<(), OutOfMemory>
    requires rise { NumbersRise (λ x. x.id) work.old.records.routes }
    requires apart { IsTrue (are_apart same_route work.old.records.routes) }
    ensures ok { OnOk result (work.new.records ≡ record work.old.records { routes = without (λ route. same router route.router && is_route_for (Some prefix) (Some by) route) work.old.records.routes }) }
    ensures back { back_steps work.new.steps.items work.new.records ≡ back_steps work.old.steps.items work.old.records }
{
    let Some(route) = work.records.route_saying(router, by, prefix) else {
        return Ok(());
    };
    let id = route.id;
    work.remove(Place::Route(id))
}

/// Removes the NAT rules of a router at a prefix, and of a kind where one is given.
pub(crate) fn remove_nats_at(
    work: &mut Work,
    router: ObjId,
    kind: Option<NatKind>,
    at: Prefix,
) -> Result<(), OutOfMemory>
    requires rise { NumbersRise (λ x. x.id) work.old.records.nats }
    requires apart { IsTrue (are_apart same_nat work.old.records.nats) }
    ensures ok { OnOk result (work.new.records ≡ record work.old.records { nats = without (λ nat. same router nat.router && is_nat_for kind (Some at) nat) work.old.records.nats }) }
    ensures back { back_steps work.new.steps.items work.new.records ≡ back_steps work.old.steps.items work.old.records }
{
    match kind {
        Some(like) => remove_nat(work, router, like, kind, at),
        None => {
            remove_nat(work, router, NatKind::Snat, kind, at)?;
            remove_nat(work, router, NatKind::Dnat, kind, at)
        }
    }
}

// Removes the NAT rule of a router that one of a kind, at a prefix, would repeat, if it is of the kind that is asked for.
fn remove_nat(
    work: &mut Work,
    router: ObjId,
    like: NatKind,
    asked: Option<NatKind>,
    at: Prefix,
) -> Result<(), OutOfMemory>
    requires rise { NumbersRise (λ x. x.id) work.old.records.nats }
    requires apart { IsTrue (are_apart same_nat work.old.records.nats) }
    ensures ok { OnOk result (work.new.records ≡ record work.old.records { nats = without (λ nat. (same router nat.router && is_nat_like like at nat) && is_asked same_nat_kind asked nat.kind) work.old.records.nats }) }
    ensures back { back_steps work.new.steps.items work.new.records ≡ back_steps work.old.steps.items work.old.records }
{
    let Some(nat) = work.records.nat_saying(router, like, at.base, at) else {
        return Ok(());
    };
    let id = nat.id;
    let goes = asked.holds(nat);
    remove_if(work, goes, Place::Nat(id))
}
