//! Edits of switches.
ghost use Rattle.std.specs.Prelude.{◌≡◌, OnOk};
ghost use Rattle.nb_records.specs.declared.edit.Edit.TheVariants as edit;
ghost use Rattle.nb_model.specs.Effect.{effect};
ghost use Rattle.nb_model.specs.Sound.{IsSound};
ghost use Rattle.nb_store.specs.Undo.{back_steps};

use crate::switch_removals::remove_switch;
use nb_records::Switch;
use nb_store::Work;
use nv_base::{Items, Name, OutOfMemory};
use std::alloc::Global;

/// `ls-add`
pub(crate) fn ls_add(
    work: &mut Work,
    alloc: Global,
    name: Name,
    may_exist: bool,
) -> Result<(), OutOfMemory>
    requires sound { IsSound work.old.records }
    ensures ok { OnOk result (work.new.records ≡ effect work.old.records (edit.LsAdd name may_exist)) }
    ensures back { back_steps work.new.steps.items work.new.records ≡ back_steps work.old.steps.items work.old.records }
{
    if work.records.switch_named(&name).is_some() {
        return Ok(());
    }
    let id = work.take_number()?;
    work.store_switch(
        alloc,
        Switch {
            id,
            name,
            lbs: Items::new(alloc),
        },
    )
}

/// `ls-del`
pub(crate) fn ls_del(
    work: &mut Work,
    alloc: Global,
    name: &Name,
    if_exists: bool,
) -> Result<(), OutOfMemory>
    requires sound { IsSound work.old.records }
    ensures ok { OnOk result (work.new.records ≡ effect work.old.records (edit.LsDel name.now if_exists)) }
    ensures back { back_steps work.new.steps.items work.new.records ≡ back_steps work.old.steps.items work.old.records }
{
    match work.records.switch_id(name) {
        Some(number) => remove_switch(work, alloc, number),
        None => Ok(()),
    }
}
