//! Load balancers that are removed, and VIPs that are.
ghost use Rattle.std.specs.Prelude.{◌≡◌, map, IfOk, OnOk, Some};
ghost use Rattle.nb_model.specs.Belongs.{same_frontend};
ghost use Rattle.nb_model.specs.Effect.{where_there, without, without_lb, delete_vip, is_last_vip};
ghost use Rattle.nb_model.specs.Network.{lb_named, lb_id};
ghost use Rattle.nb_model.specs.Sound.{AreInOrder};
ghost use Rattle.nv_table.specs.Table.{NumbersRise};
ghost use Rattle.nb_store.specs.Undo.{back_steps};
ghost use Rattle.nb_change.specs.inner.Balancers.{switch_leaves, router_leaves, vip_leaves};

use nb_records::{Frontend, Lb, Vip};
use nb_store::{Place, Work};
use nv_base::{Items, Kept, Name, ObjId, OutOfMemory};
use std::alloc::Global;

/// Removes the load balancer of a name, which leaves its switches and routers.
pub(crate) fn remove_lb_named(
    work: &mut Work,
    alloc: Global,
    name: &Name,
) -> Result<(), OutOfMemory>
    requires order { AreInOrder work.old.records }
    ensures ok { OnOk result (work.new.records ≡ without_lb (lb_id work.old.records name.now) work.old.records) }
    ensures back { back_steps work.new.steps.items work.new.records ≡ back_steps work.old.steps.items work.old.records }
{
    match work.records.lb_id(name) {
        Some(number) => remove_lb(work, alloc, number),
        None => Ok(()),
    }
}

/// Removes a VIP of the load balancer of a name. The last one takes the load balancer with it.
pub(crate) fn remove_vip(
    work: &mut Work,
    alloc: Global,
    name: &Name,
    at: Frontend,
) -> Result<(), OutOfMemory>
    requires order { AreInOrder work.old.records }
    ensures ok { OnOk result (work.new.records ≡ where_there (lb_named work.old.records name.now) (delete_vip work.old.records at) work.old.records) }
    ensures back { back_steps work.new.steps.items work.new.records ≡ back_steps work.old.steps.items work.old.records }
{
    let Some(old) = work.records.lb_named(name) else {
        return Ok(());
    };
    if is_last_vip(at, old) {
        let number = old.id;
        return remove_lb(work, alloc, number);
    }
    let left = without_vip(alloc, old, at)?;
    work.store_lb(alloc, left)
}

// Removes a load balancer, which leaves its switches and routers.
fn remove_lb(work: &mut Work, alloc: Global, lb: ObjId) -> Result<(), OutOfMemory>
    requires order { AreInOrder work.old.records }
    ensures ok { OnOk result (work.new.records ≡ without_lb (Some lb) work.old.records) }
    ensures back { back_steps work.new.steps.items work.new.records ≡ back_steps work.old.steps.items work.old.records }
{
    leave_switches(work, alloc, lb)?;
    leave_routers(work, alloc, lb)?;
    work.remove(Place::Lb(lb))
}

// Takes a load balancer off the switches that have it.
fn leave_switches(work: &mut Work, alloc: Global, lb: ObjId) -> Result<(), OutOfMemory>
    requires rise { NumbersRise (λ x. x.id) work.old.records.switches }
    ensures ok { OnOk result (work.new.records ≡ record work.old.records { switches = map (switch_leaves lb) work.old.records.switches }) }
    ensures back { back_steps work.new.steps.items work.new.records ≡ back_steps work.old.steps.items work.old.records }
{
    while let Some(switch) = work.records.switch_with(lb, None) {
        let number = switch.id;
        work.unlist_on_switch(alloc, number, lb)?;
    }
    Ok(())
}

// Takes a load balancer off the routers that have it.
fn leave_routers(work: &mut Work, alloc: Global, lb: ObjId) -> Result<(), OutOfMemory>
    requires rise { NumbersRise (λ x. x.id) work.old.records.routers }
    ensures ok { OnOk result (work.new.records ≡ record work.old.records { routers = map (router_leaves lb) work.old.records.routers }) }
    ensures back { back_steps work.new.steps.items work.new.records ≡ back_steps work.old.steps.items work.old.records }
{
    while let Some(router) = work.records.router_with(lb, None) {
        let number = router.id;
        work.unlist_on_router(alloc, number, lb)?;
    }
    Ok(())
}

// Whether the load balancer has no other VIP.
fn is_last_vip(at: Frontend, lb: &Lb) -> bool
    ensures { result ≡ is_last_vip at lb.now }
{
    lb.vips.as_slice().iter().all(|vip| at == vip.at)
}

// The load balancer without the VIP at an address and port.
fn without_vip(alloc: Global, lb: &Lb, at: Frontend) -> Result<Lb, OutOfMemory>
    ensures { IfOk result (λ left. left ≡ vip_leaves at lb.now) }
{
    Ok(Lb {
        id: lb.id,
        name: lb.name.copy(alloc)?,
        proto: lb.proto,
        vips: other_vips(alloc, lb.vips.as_slice(), at)?,
    })
}

// The VIPs but the one at an address and port.
fn other_vips(alloc: Global, vips: &[Vip], at: Frontend) -> Result<Items<Vip>, OutOfMemory>
    ensures { IfOk result (λ left. left ≡ without (λ vip. same_frontend at vip.at) vips.now) }
{
    let mut left = Items::new(alloc);
    for vip in vips {
        if at != vip.at {
            left.push(vip.copy(alloc)?)?;
        }
    }
    Ok(left)
}
