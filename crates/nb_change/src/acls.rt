//! Edits of ACLs.
ghost use Rattle.std.specs.Prelude.{◌≡◌, OnOk};
ghost use Rattle.expr_check.specs.Printed.{IsPrintable};
ghost use Rattle.nb_records.specs.declared.edit.Edit.TheVariants as edit;
ghost use Rattle.nb_read.specs.Readings.{role_of};
ghost use Rattle.nb_model.specs.Effect.{effect};
ghost use Rattle.nb_model.specs.Sound.{IsSound};
ghost use Rattle.nb_store.specs.Undo.{back_steps};

use expr_core::Typed;
use nb_records::{Acl, OwnerKind, Verdict, Way};
use nb_store::Work;
use nv_base::{Name, OutOfMemory};
use std::alloc::Global;

/// `acl-add`
pub(crate) fn acl_add(
    work: &mut Work,
    alloc: Global,
    owner: &Name,
    way: Way,
    priority: u16,
    matching: Typed,
    verdict: Verdict,
    may_exist: bool,
    of: Option<OwnerKind>,
) -> Result<(), OutOfMemory>
    requires sound { IsSound work.old.records }
    requires printed { IsPrintable (role_of way) matching }
    ensures ok { OnOk result (work.new.records ≡ effect work.old.records (edit.AclAdd owner.now way priority matching verdict may_exist of)) }
    ensures back { back_steps work.new.steps.items work.new.records ≡ back_steps work.old.steps.items work.old.records }
{
    let Some(owner) = work.records.owner_id(of, owner) else {
        return Ok(());
    };
    let like = work.records.acl_like(owner, way, priority, &matching);
    if like.is_some() {
        return Ok(());
    }
    let id = work.take_number()?;
    work.store_acl(
        alloc,
        Acl {
            id,
            owner,
            way,
            priority,
            matching,
            verdict,
        },
    )
}
