//! Edits of load balancers, and of the switches and routers that have them.
ghost use Rattle.std.specs.Prelude.{◌≡◌, ◌+◌, ◌<◌, ◌^◌, [], ◌∷◌, ◌++◌, unwrap_or, IfOk, OnOk};
ghost use Rattle.nb_records.specs.declared.balancer.Proto.TheVariants.{Tcp};
ghost use Rattle.nb_records.specs.declared.edit.Edit.TheVariants as edit;
ghost use Rattle.nb_model.specs.Network.{next_number};
ghost use Rattle.nb_model.specs.Effect.{effect};
ghost use Rattle.nb_model.specs.Sound.{IsSound};
ghost use Rattle.nv_table.specs.Table.{with_exchanged};
ghost use Rattle.nb_store.specs.Undo.{back_steps};

use crate::balancer_removals::{remove_lb_named, remove_vip};
use nb_records::{Backend, Frontend, Lb, Proto, Router, Switch, Vip};
use nb_store::Work;
use nv_base::{Items, Kept, Name, OutOfMemory};
use std::alloc::Global;

/// `ls-lb-add`
pub(crate) fn ls_lb_add(
    work: &mut Work,
    alloc: Global,
    switch: &Name,
    lb: &Name,
    may_exist: bool,
) -> Result<(), OutOfMemory>
    requires sound { IsSound work.old.records }
    ensures ok { OnOk result (work.new.records ≡ effect work.old.records (edit.LsLbAdd switch.now lb.now may_exist)) }
    ensures back { back_steps work.new.steps.items work.new.records ≡ back_steps work.old.steps.items work.old.records }
{
    let Some(number) = work.records.lb_id(lb) else {
        return Ok(());
    };
    let Some(old) = work.records.switch_named(switch) else {
        return Ok(());
    };
    let id = old.id;
    work.list_on_switch(alloc, id, number)
}

/// `lr-lb-add`
pub(crate) fn lr_lb_add(
    work: &mut Work,
    alloc: Global,
    router: &Name,
    lb: &Name,
    may_exist: bool,
) -> Result<(), OutOfMemory>
    requires sound { IsSound work.old.records }
    ensures ok { OnOk result (work.new.records ≡ effect work.old.records (edit.LrLbAdd router.now lb.now may_exist)) }
    ensures back { back_steps work.new.steps.items work.new.records ≡ back_steps work.old.steps.items work.old.records }
{
    let Some(number) = work.records.lb_id(lb) else {
        return Ok(());
    };
    let Some(old) = work.records.router_named(router) else {
        return Ok(());
    };
    let id = old.id;
    work.list_on_router(alloc, id, number)
}

/// `ls-lb-del`
pub(crate) fn ls_lb_del(
    work: &mut Work,
    alloc: Global,
    switch: Name,
    lb: &Option<Name>,
    if_exists: bool,
) -> Result<(), OutOfMemory>
    requires sound { IsSound work.old.records }
    ensures ok { OnOk result (work.new.records ≡ effect work.old.records (edit.LsLbDel switch lb.now if_exists)) }
    ensures back { back_steps work.new.steps.items work.new.records ≡ back_steps work.old.steps.items work.old.records }
{
    let Some(old) = work.records.switch_named(&switch) else {
        return Ok(());
    };
    let id = old.id;
    let Some(lb) = lb else {
        let emptied = Switch {
            id,
            name: switch,
            lbs: Items::new(alloc),
        };
        return work.store_switch(alloc, emptied);
    };
    let Some(number) = work.records.lb_id(lb) else {
        return Ok(());
    };
    work.unlist_on_switch(alloc, id, number)
}

/// `lr-lb-del`
pub(crate) fn lr_lb_del(
    work: &mut Work,
    alloc: Global,
    router: Name,
    lb: &Option<Name>,
    if_exists: bool,
) -> Result<(), OutOfMemory>
    requires sound { IsSound work.old.records }
    ensures ok { OnOk result (work.new.records ≡ effect work.old.records (edit.LrLbDel router lb.now if_exists)) }
    ensures back { back_steps work.new.steps.items work.new.records ≡ back_steps work.old.steps.items work.old.records }
{
    let Some(old) = work.records.router_named(&router) else {
        return Ok(());
    };
    let id = old.id;
    let Some(lb) = lb else {
        let emptied = Router {
            id,
            name: router,
            lbs: Items::new(alloc),
        };
        return work.store_router(alloc, emptied);
    };
    let Some(number) = work.records.lb_id(lb) else {
        return Ok(());
    };
    work.unlist_on_router(alloc, id, number)
}

/// `lb-add`
pub(crate) fn lb_add(
    work: &mut Work,
    alloc: Global,
    name: Name,
    at: Frontend,
    backends: Items<Backend>,
    proto: Option<Proto>,
) -> Result<(), OutOfMemory>
    requires sound { IsSound work.old.records }
    ensures ok { OnOk result (work.new.records ≡ effect work.old.records (edit.LbAdd name at backends proto)) }
    ensures back { back_steps work.new.steps.items work.new.records ≡ back_steps work.old.steps.items work.old.records }
{
    let vip = Vip { at, backends };
    let Some(old) = work.records.lb_named(&name) else {
        return add_lb(work, alloc, name, vip, proto);
    };
    let changed = Lb {
        id: old.id,
        name,
        proto: old.proto,
        vips: with_vip(alloc, &old.vips, vip)?,
    };
    work.store_lb(alloc, changed)
}

/// `lb-del`
pub(crate) fn lb_del(
    work: &mut Work,
    alloc: Global,
    name: &Name,
    at: Option<Frontend>,
    if_exists: bool,
) -> Result<(), OutOfMemory>
    requires sound { IsSound work.old.records }
    ensures ok { OnOk result (work.new.records ≡ effect work.old.records (edit.LbDel name.now at if_exists)) }
    ensures back { back_steps work.new.steps.items work.new.records ≡ back_steps work.old.steps.items work.old.records }
{
    match at {
        Some(at) => remove_vip(work, alloc, name, at),
        None => remove_lb_named(work, alloc, name),
    }
}

// Adds a load balancer with one VIP, which takes TCP where no protocol is given.
fn add_lb(
    work: &mut Work,
    alloc: Global,
    name: Name,
    vip: Vip,
    proto: Option<Proto>,
) -> Result<(), OutOfMemory>
    requires room { work.old.records.next + 1 < 2 ^ 32 }
    ensures ok { OnOk result (work.new.records ≡ record work.old.records { lbs = with_exchanged (λ x. x.id) (record { id = next_number work.old.records; name = name; proto = unwrap_or proto Tcp; vips = vip ∷ [] }) work.old.records.lbs; next = work.old.records.next + 1 }) }
    ensures back { back_steps work.new.steps.items work.new.records ≡ back_steps work.old.steps.items work.old.records }
{
    let mut vips = Items::new(alloc);
    vips.push(vip)?;
    let id = work.take_number()?;
    let proto = proto.unwrap_or(Proto::Tcp);
    work.store_lb(
        alloc,
        Lb {
            id,
            name,
            proto,
            vips,
        },
    )
}

// The VIPs with one more, last.
fn with_vip(alloc: Global, vips: &Items<Vip>, vip: Vip) -> Result<Items<Vip>, OutOfMemory>
    ensures { IfOk result (λ longer. longer ≡ vips.now ++ vip ∷ []) }
{
    let mut longer = vips.copy(alloc)?;
    longer.push(vip)?;
    Ok(longer)
}
