//! Edits of address sets.
ghost use Rattle.std.specs.Prelude.{◌≡◌, OnOk};
ghost use Rattle.nb_records.specs.declared.edit.Edit.TheVariants as edit;
ghost use Rattle.nb_model.specs.Effect.{effect};
ghost use Rattle.nb_model.specs.Sound.{IsSound};
ghost use Rattle.nb_store.specs.Undo.{back_steps};

use nb_records::{AddrSet, Member};
use nb_store::{Place, Work};
use nv_base::{Items, Name, OutOfMemory};
use std::alloc::Global;

/// `as-add`
pub(crate) fn as_add(
    work: &mut Work,
    alloc: Global,
    name: Name,
    members: Items<Member>,
) -> Result<(), OutOfMemory>
    requires sound { IsSound work.old.records }
    ensures ok { OnOk result (work.new.records ≡ effect work.old.records (edit.AsAdd name members)) }
    ensures back { back_steps work.new.steps.items work.new.records ≡ back_steps work.old.steps.items work.old.records }
{
    let id = work.take_number()?;
    work.store_set(alloc, AddrSet { id, name, members })
}

/// `as-set`
pub(crate) fn as_set(
    work: &mut Work,
    alloc: Global,
    name: Name,
    members: Items<Member>,
) -> Result<(), OutOfMemory>
    requires sound { IsSound work.old.records }
    ensures ok { OnOk result (work.new.records ≡ effect work.old.records (edit.AsSet name members)) }
    ensures back { back_steps work.new.steps.items work.new.records ≡ back_steps work.old.steps.items work.old.records }
{
    let Some(old) = work.records.set_named(&name) else {
        return Ok(());
    };
    let id = old.id;
    work.store_set(alloc, AddrSet { id, name, members })
}

/// `as-del`
pub(crate) fn as_del(work: &mut Work, name: &Name, if_exists: bool) -> Result<(), OutOfMemory>
    requires sound { IsSound work.old.records }
    ensures ok { OnOk result (work.new.records ≡ effect work.old.records (edit.AsDel name.now if_exists)) }
    ensures back { back_steps work.new.steps.items work.new.records ≡ back_steps work.old.steps.items work.old.records }
{
    let Some(set) = work.records.set_named(name) else {
        return Ok(());
    };
    let id = set.id;
    work.remove(Place::Set(id))
}
