//! The input of the stages of ACLs of a switch, read from the records.
ghost use Rattle.std.specs.Prelude.{◌≡◌, not, Some};
ghost use Rattle.std.specs.List.{list_any};
ghost use Rattle.nb_model.specs.Sound.{IsSound};
ghost use Rattle.nv_table.specs.Table.{record_of};
ghost use Rattle.nb_model.specs.Applies.{is_empty, is_related};
ghost use Rattle.net_rows.specs.Build.{switch_acl_input};
ghost use Rattle.nd_full.specs.inner.Made.{has_related};
ghost use Rattle.nd_full.specs.inner.Owners.{AreOwners};

use nb_records::{Switch, Verdict};
use nb_store::Records;
use net_rows::SwitchAclInput;
use nv_base::ObjId;

/// The input of the stages of ACLs of a switch to which the ACLs of these owners apply.
pub(crate) fn switch_acl_input(
    records: &Records,
    switch: &Switch,
    owners: &[ObjId],
) -> SwitchAclInput
    requires sound { IsSound records.now }
    requires there { record_of (λ x. x.id) switch.now.id records.now.switches ≡ Some switch.now }
    requires owners { AreOwners records.now switch.now.id owners.now }
    ensures { result ≡ switch_acl_input records.now switch.now.id }
{
    let balances = balances(switch);
    SwitchAclInput {
        tracks: has_related(records, owners) || balances,
        balances,
    }
}

// Whether a load balancer is attached to the switch.
fn balances(switch: &Switch) -> bool
    ensures { result ≡ not (is_empty switch.now.lbs) }
{
    !switch.lbs.as_slice().is_empty()
}

// Whether one of the owners has an `allow-related` ACL.
fn has_related(records: &Records, owners: &[ObjId]) -> bool
    requires { IsSound records.now }
    ensures { result ≡ list_any (has_related records.now) owners.now }
{
    owners.iter().any(|owner| has_related_acl(records, *owner))
}

fn has_related_acl(records: &Records, owner: ObjId) -> bool
    requires { IsSound records.now }
    ensures { result ≡ has_related records.now owner }
{
    let mut last = None;
    while let Some(acl) = records.acl_of(owner, last) {
        if is_related(acl.verdict) {
            return true;
        }
        last = Some(acl.id);
    }
    false
}

fn is_related(verdict: Verdict) -> bool
    ensures { result ≡ is_related verdict }
{
    matches!(verdict, Verdict::AllowRelated)
}
