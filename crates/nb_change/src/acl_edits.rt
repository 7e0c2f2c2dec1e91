//! ACLs that a command removes.
ghost use Rattle.std.specs.Prelude.{◌≡◌, ◌&&◌, OnOk};
ghost use Rattle.expr_check.specs.Printed.{IsPrintable};
ghost use Rattle.nb_read.specs.Readings.{role_of};
ghost use Rattle.nb_records.specs.declared.edit.Edit.TheVariants as edit;
ghost use Rattle.nb_model.specs.Belongs.{same_way};
ghost use Rattle.nb_model.specs.Effect.{effect, without, is_rule};
ghost use Rattle.nb_model.specs.Network.{same};
ghost use Rattle.nb_model.specs.Readable.{MayBeRule};
ghost use Rattle.nb_model.specs.Sound.{IsSound};
ghost use Rattle.nb_store.specs.Undo.{back_steps};

use crate::owned::{drop_all, drop_each};
use expr_core::Typed;
use nb_records::{Acl, OwnerKind, Way};
use nb_store::{Place, Work};
use nv_base::{Name, ObjId, OutOfMemory};

/// `acl-del`
pub(crate) fn acl_del(
    work: &mut Work,
    owner: &Name,
    way: Option<Way>,
    rule: &Option<(u16, Typed)>,
    of: Option<OwnerKind>,
) -> Result<(), OutOfMemory>
    requires sound { IsSound work.old.records }
    requires readable { MayBeRule way rule.now }
    ensures ok { OnOk result (work.new.records ≡ effect work.old.records (edit.AclDel owner.now way rule.now of)) }
    ensures back { back_steps work.new.steps.items work.new.records ≡ back_steps work.old.steps.items work.old.records }
{
    let Some(owner) = work.records.owner_id(of, owner) else {
        return Ok(());
    };
    match (way, rule) {
        (None, _) => drop_all::<Acl>(work, owner),
        (Some(way), None) => drop_each::<Acl, Way>(work, owner, &way),
        (Some(way), Some((priority, matching))) => {
            remove_acl_like(work, owner, way, *priority, matching)
        }
    }
}

// Removes the ACL of this owner, direction, priority and printed match.
fn remove_acl_like(
    work: &mut Work,
    owner: ObjId,
    way: Way,
    priority: u16,
    matching: &Typed,
) -> Result<(), OutOfMemory>
    requires sound { IsSound work.old.records }
    requires printed { IsPrintable (role_of way) matching.now }
    ensures ok { OnOk result (work.new.records ≡ record work.old.records { acls = without (λ acl. same owner acl.owner && (same_way way acl.way && is_rule (priority, matching.now) acl)) work.old.records.acls }) }
    ensures back { back_steps work.new.steps.items work.new.records ≡ back_steps work.old.steps.items work.old.records }
{
    let Some(id) = work.records.acl_like(owner, way, priority, matching) else {
        return Ok(());
    };
    work.remove(Place::Acl(id))
}
