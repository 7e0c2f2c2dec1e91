//! Edits of routers and of their ports.
ghost use Rattle.std.specs.Prelude.{◌≡◌, OnOk};
ghost use Rattle.nb_records.specs.declared.edit.Edit.TheVariants as edit;
ghost use Rattle.nb_model.specs.Effect.{effect};
ghost use Rattle.nb_model.specs.Sound.{IsSound};
ghost use Rattle.nb_store.specs.Undo.{back_steps};

use crate::router_removals::{remove_router, remove_router_port};
use nb_records::{Router, RouterPort};
use nb_store::Work;
use nv_base::{Items, Kept, Mac, Name, OutOfMemory, Prefix};
use std::alloc::Global;

/// `lr-add`
pub(crate) fn lr_add(
    work: &mut Work,
    alloc: Global,
    name: Name,
    may_exist: bool,
) -> Result<(), OutOfMemory>
    requires sound { IsSound work.old.records }
    ensures ok { OnOk result (work.new.records ≡ effect work.old.records (edit.LrAdd name may_exist)) }
    ensures back { back_steps work.new.steps.items work.new.records ≡ back_steps work.old.steps.items work.old.records }
{
    if work.records.router_named(&name).is_some() {
        return Ok(());
    }
    let id = work.take_number()?;
    work.store_router(
        alloc,
        Router {
            id,
            name,
            lbs: Items::new(alloc),
        },
    )
}

/// `lrp-add`
pub(crate) fn lrp_add(
    work: &mut Work,
    alloc: Global,
    router: &Name,
    port: Name,
    mac: Mac,
    nets: Items<Prefix>,
    may_exist: bool,
) -> Result<(), OutOfMemory>
    requires sound { IsSound work.old.records }
    ensures ok { OnOk result (work.new.records ≡ effect work.old.records (edit.LrpAdd router.now port mac nets may_exist)) }
    ensures back { back_steps work.new.steps.items work.new.records ≡ back_steps work.old.steps.items work.old.records }
{
    if work.records.router_port_named(&port).is_some() {
        return Ok(());
    }
    let Some(router) = work.records.router_id(router) else {
        return Ok(());
    };
    let id = work.take_number()?;
    work.store_router_port(
        alloc,
        RouterPort {
            id,
            router,
            name: port,
            mac,
            nets,
            enabled: true,
        },
    )
}

/// `lrp-set-enabled`
pub(crate) fn lrp_set_enabled(
    work: &mut Work,
    alloc: Global,
    port: Name,
    enabled: bool,
) -> Result<(), OutOfMemory>
    requires sound { IsSound work.old.records }
    ensures ok { OnOk result (work.new.records ≡ effect work.old.records (edit.LrpSetEnabled port enabled)) }
    ensures back { back_steps work.new.steps.items work.new.records ≡ back_steps work.old.steps.items work.old.records }
{
    let Some(old) = work.records.router_port_named(&port) else {
        return Ok(());
    };
    let changed = RouterPort {
        id: old.id,
        router: old.router,
        name: port,
        mac: old.mac,
        nets: old.nets.copy(alloc)?,
        enabled,
    };
    work.store_router_port(alloc, changed)
}

/// `lr-del`
pub(crate) fn lr_del(work: &mut Work, name: &Name, if_exists: bool) -> Result<(), OutOfMemory>
    requires sound { IsSound work.old.records }
    ensures ok { OnOk result (work.new.records ≡ effect work.old.records (edit.LrDel name.now if_exists)) }
    ensures back { back_steps work.new.steps.items work.new.records ≡ back_steps work.old.steps.items work.old.records }
{
    match work.records.router_id(name) {
        Some(number) => remove_router(work, number),
        None => Ok(()),
    }
}

/// `lrp-del`
pub(crate) fn lrp_del(work: &mut Work, port: &Name, if_exists: bool) -> Result<(), OutOfMemory>
    requires sound { IsSound work.old.records }
    ensures ok { OnOk result (work.new.records ≡ effect work.old.records (edit.LrpDel port.now if_exists)) }
    ensures back { back_steps work.new.steps.items work.new.records ≡ back_steps work.old.steps.items work.old.records }
{
    match work.records.router_port_id(port) {
        Some(number) => remove_router_port(work, number),
        None => Ok(()),
    }
}
