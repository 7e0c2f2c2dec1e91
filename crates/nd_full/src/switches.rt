//! The rows of a switch, of the ACLs that apply to it, and of the load balancers that are attached to it.
ghost use Rattle.std.specs.Prelude.{◌≡◌, ◌++◌, Some, OnOk};
ghost use Rattle.nb_model.specs.Sound.{IsSound};
ghost use Rattle.nv_table.specs.Table.{record_of};
ghost use Rattle.net_rows.specs.Build.{has_unknown, switch_acl_input};
ghost use Rattle.nd_full.specs.inner.Made.{acl_units, rows_at};
ghost use Rattle.nd_router.specs.Members.{HaveSameRows};
ghost use Rattle.nd_full.specs.inner.Owners.{AreOwners};

use crate::balancers::add_rows_of_balancers;
use crate::made::MadeRows;
use nb_records::Switch;
use nb_store::Records;
use net_rows::{SwitchAclInput, SwitchL2Input};
use nv_base::{ObjId, OutOfMemory};
use std::alloc::Global;

/// The rows of a switch, of each ACL of the owners whose ACLs apply to it, and of each load balancer that is attached to it, come to the
/// others. `unknown` says whether an enabled port of it has the address `unknown`.
pub(crate) fn add_rows_of_switch(
    alloc: Global,
    made: &mut MadeRows,
    records: &Records,
    switch: &Switch,
    owners: &[ObjId],
    acl: &SwitchAclInput,
    unknown: bool,
) -> Result<(), OutOfMemory>
    requires sound { IsSound records.now }
    requires there { record_of (λ x. x.id) switch.now.id records.now.switches ≡ Some switch.now }
    requires owners { AreOwners records.now switch.now.id owners.now }
    requires acl { acl.now ≡ switch_acl_input records.now switch.now.id }
    requires unknown { unknown ≡ has_unknown records.now switch.now.id }
    ensures { OnOk result (HaveSameRows made.new (made.old ++ rows_at records.now switch.now)) }
{
    let lookup = SwitchL2Input { unknown };
    made.add_switch(alloc, switch.id, acl, &lookup)?;
    for owner in owners {
        add_rows_of_acls(alloc, made, records, switch.id, acl.tracks, *owner)?;
    }
    add_rows_of_balancers(alloc, made, records, switch)?;
    Ok(())
}

// The rows of the ACLs of an owner on a switch come after the others.
fn add_rows_of_acls(
    alloc: Global,
    made: &mut MadeRows,
    records: &Records,
    switch: ObjId,
    tracks: bool,
    owner: ObjId,
) -> Result<(), OutOfMemory>
    requires { IsSound records.now }
    ensures { OnOk result (made.new ≡ made.old ++ acl_units records.now switch tracks owner) }
{
    let mut last = None;
    while let Some(acl) = records.acl_of(owner, last) {
        made.add_acl(alloc, switch, tracks, acl)?;
        last = Some(acl.id);
    }
    Ok(())
}
