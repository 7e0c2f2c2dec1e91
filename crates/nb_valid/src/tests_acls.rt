//! The tests of the edits of ACLs.
ghost use Rattle.std.specs.Prelude.{IfOk, IfErr};
ghost use Rattle.expr_check.specs.Printed.{IsPrintable};
ghost use Rattle.nb_records.specs.declared.edit.Edit.TheVariants as edit;
ghost use Rattle.nb_read.specs.Readings.{role_of};
ghost use Rattle.nb_model.specs.Sound.{IsSound};
ghost use Rattle.nb_valid.specs.Tested.{Passes};
ghost use Rattle.nb_valid.specs.inner.Refused.{Refuses};

use expr_core::Typed;
use nb_find::{acl_number, duplicate_if, wants_owner};
use nb_records::{Edit, OwnerKind, Refusal, Verdict, Way};
use nb_store::Records;
use nv_base::Name;

/// `acl-add`: the owner is there, and has no ACL like it, or may have.
pub(crate) fn test_acl_add(
    records: &Records,
    owner: Name,
    way: Way,
    priority: u16,
    matching: Typed,
    verdict: Verdict,
    may_exist: bool,
    of: Option<OwnerKind>,
) -> Result<Edit, Refusal>
    requires sound { IsSound records.now }
    requires printed { IsPrintable (role_of way) matching }
    ensures ok { IfOk result (Passes records.now (edit.AclAdd owner way priority matching verdict may_exist of)) }
    ensures refused { IfErr result (Refuses records.now (edit.AclAdd owner way priority matching verdict may_exist of)) }
{
    let owner = wants_owner(records, of, owner)?;
    let number = records.owner_id(of, &owner);
    let like = acl_number(records, number, way, priority, &matching);
    duplicate_if(!may_exist, like)?;
    Ok(Edit::AclAdd {
        owner,
        way,
        priority,
        matching,
        verdict,
        may_exist,
        of,
    })
}

/// `acl-del`: the owner is there.
pub(crate) fn test_acl_del(
    records: &Records,
    owner: Name,
    way: Option<Way>,
    rule: Option<(u16, Typed)>,
    of: Option<OwnerKind>,
) -> Result<Edit, Refusal>
    ensures ok { IfOk result (Passes records.now (edit.AclDel owner way rule of)) }
    ensures refused { IfErr result (Refuses records.now (edit.AclDel owner way rule of)) }
{
    let owner = wants_owner(records, of, owner)?;
    Ok(Edit::AclDel {
        owner,
        way,
        rule,
        of,
    })
}
