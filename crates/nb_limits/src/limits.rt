//! The limits of the network (not from OVN).
ghost use Rattle.std.specs.Prelude.{◌≡◌, nat_lt, IfOk};
ghost use Rattle.nb_limits.specs.Ceilings.{AreCeilings};
ghost use Rattle.nb_limits.specs.Limitless.{IsSoundButLimits};
ghost use Rattle.nb_model.specs.Amounts.{amount, bound, first_over};
ghost use Rattle.nb_model.specs.Rises.{may_rise};

use crate::amounts::amount_within;
use crate::bounds::bound;
use crate::ceilings::Ceilings;
use nb_records::{Edit, Kind, Refusal};
use nb_store::Records;
use nv_base::OutOfMemory;
use std::alloc::Global;

/// The kinds of which there can be more after an edit of a sound network, in the order in which their bounds are tested (not from OVN).
pub fn may_rise(edit: &Edit) -> &'static [Kind]
    ensures { result.now ≡ may_rise edit.now }
{
    match edit {
        Edit::LsAdd { .. } => &[Kind::Switch],
        Edit::LrAdd { .. } => &[Kind::Router],
        Edit::LspAdd { .. } => &[Kind::Port],
        Edit::LspSetAddresses { .. } => &[Kind::Address, Kind::Neighbour],
        Edit::LspSetPortSecurity { .. } => &[Kind::Security],
        Edit::LsDel { .. }
        | Edit::LspDel { .. }
        | Edit::LspSetType { .. }
        | Edit::LspSetOptions { .. }
        | Edit::LspSetEnabled { enabled: true, .. } => &[Kind::Neighbour],
        Edit::LrpAdd { .. } => &[Kind::RouterPort, Kind::Network, Kind::Neighbour],
        Edit::LrRouteAdd { .. } => &[Kind::Route],
        Edit::LrNatAdd { .. } => &[Kind::Nat],
        Edit::LbAdd { .. } => &[Kind::Lb, Kind::Vip, Kind::Backend, Kind::VipDatapath],
        Edit::LsLbAdd { .. } | Edit::LrLbAdd { .. } => &[Kind::VipDatapath],
        Edit::AclAdd { .. } => &[Kind::Acl, Kind::AclSwitch, Kind::MatchText],
        Edit::PgAdd { .. } | Edit::AsAdd { .. } => &[Kind::Set, Kind::Member],
        Edit::PgSetPorts { .. } => &[Kind::AclSwitch, Kind::Member, Kind::MatchText],
        Edit::AsSet { .. } => &[Kind::Member],
        Edit::SmbAdd { .. } => &[Kind::Binding],
        _ => &[],
    }
}

/// The refusal for the first of these kinds of which there is more than its bound, and `None` where there is no more of any (not from
/// OVN). Where a kind had to be counted, what is known says so then. `OutOfMemory` where memory runs out for the count.
pub fn first_over(
    alloc: Global,
    records: &Records,
    known: &mut Ceilings,
    kinds: &[Kind],
) -> Result<Option<Refusal>, OutOfMemory>
    requires limitless { IsSoundButLimits records.now }
    requires known { AreCeilings records.now known.old }
    ensures first { IfOk result (λ refusal. refusal ≡ first_over kinds.now records.now) }
    ensures known { AreCeilings records.now known.new }
{
    for kind in kinds {
        if is_over(alloc, records, known, *kind)? {
            return Ok(Some(Refusal::Limit(*kind, bound(*kind))));
        }
    }
    Ok(None)
}

// Whether there is more of a kind than its bound.
fn is_over(
    alloc: Global,
    records: &Records,
    known: &mut Ceilings,
    kind: Kind,
) -> Result<bool, OutOfMemory>
    requires limitless { IsSoundButLimits records.now }
    requires known { AreCeilings records.now known.old }
    ensures over { IfOk result (λ over. over ≡ nat_lt (bound kind) (amount records.now kind)) }
    ensures known { AreCeilings records.now known.new }
{
    match kind {
        Kind::AclSwitch => known.is_acl_switch_over(alloc, records),
        Kind::Vip => Ok(known.is_vip_over(records)),
        Kind::Backend => Ok(known.is_backend_over(records)),
        Kind::MatchText => known.is_match_text_over(alloc, records),
        Kind::Neighbour => Ok(known.is_neighbour_over(records)),
        Kind::VipDatapath => Ok(known.is_vip_datapath_over(records)),
        _ => Ok(amount_within(alloc, records, kind)?.is_none()),
    }
}
