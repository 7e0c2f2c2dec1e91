//! How much of each kind a network has (not from OVN).
ghost use Rattle.std.specs.Prelude.{◌≡◌, ◌⊎◌, IfOk, OnErr};
ghost use Rattle.nb_records.specs.declared.refusal.Kind.TheVariants as kinds;
ghost use Rattle.nb_limits.specs.Limitless.{IsSoundButLimits};
ghost use Rattle.nb_limits.specs.inner.Within.{up_to};
ghost use Rattle.nb_model.specs.Amounts.{amount, bound};
ghost use Rattle.nb_model.specs.Sound.{IsSound};

use crate::acl_limits::{acl_switches, match_text};
use crate::balancer_limits::{backend_count, vip_count, vip_datapaths};
use crate::bounds::bound;
use crate::neighbour_limits::neighbours;
use crate::within::{add, count_within, weight_within};
use nb_records::Kind;
use nb_store::Records;
use nv_base::OutOfMemory;
use std::alloc::Global;

/// How much of a kind a sound network has, as the limits count it; of VIPs and backends the most that one load balancer, or one VIP,
/// has (not from OVN). Only what is counted once for each switch of an ACL takes memory; where there is none, `OutOfMemory`.
pub fn amount(alloc: Global, records: &Records, kind: Kind) -> Result<u64, OutOfMemory>
    requires { IsSound records.now }
    ensures amount { IfOk result (λ count. count ≡ amount records.now kind) }
    ensures memory { OnErr result ((kind ≡ kinds.AclSwitch) ⊎ (kind ≡ kinds.MatchText)) }
{
    let count = amount_within(alloc, records, kind)?;
    Ok(count.unwrap())
}

/// How much of a kind there is, where it is within the bound.
pub(crate) fn amount_within(
    alloc: Global,
    records: &Records,
    kind: Kind,
) -> Result<Option<u64>, OutOfMemory>
    requires limitless { IsSoundButLimits records.now }
    ensures amount { IfOk result (λ count. count ≡ up_to (bound kind) (amount records.now kind)) }
    ensures memory { OnErr result ((kind ≡ kinds.AclSwitch) ⊎ (kind ≡ kinds.MatchText)) }
{
    match kind {
        Kind::Switch => Ok(count_within(records.switches().count(), kind)),
        Kind::Router => Ok(count_within(records.routers().count(), kind)),
        Kind::Port => Ok(count_within(records.ports().count(), kind)),
        Kind::RouterPort => Ok(count_within(records.router_ports().count(), kind)),
        Kind::Network => Ok(weight_within(records.router_ports().weights().0, kind)),
        Kind::Address => Ok(addresses(records)),
        Kind::Security => Ok(security(records)),
        Kind::Acl => Ok(count_within(records.acls().count(), kind)),
        Kind::AclSwitch => acl_switches(alloc, records),
        Kind::Route => Ok(count_within(records.routes().count(), kind)),
        Kind::Nat => Ok(count_within(records.nats().count(), kind)),
        Kind::Lb => Ok(count_within(records.lbs().count(), kind)),
        Kind::Vip => Ok(count_within(vip_count(records), kind)),
        Kind::Backend => Ok(count_within(backend_count(records), kind)),
        Kind::VipDatapath => Ok(vip_datapaths(records, u64::from(bound(kind)))),
        Kind::Neighbour => Ok(neighbours(records, u64::from(bound(kind)))),
        Kind::Set => Ok(sets(records)),
        Kind::Member => Ok(members(records)),
        Kind::MatchText => match_text(alloc, records),
        Kind::Binding => Ok(count_within(records.bindings().count(), kind)),
    }
}

fn addresses(records: &Records) -> Option<u64>
    ensures { result ≡ up_to (bound kinds.Address) (amount records.now kinds.Address) }
{
    weight_within(records.ports().weights().0, Kind::Address)
}

fn security(records: &Records) -> Option<u64>
    ensures { result ≡ up_to (bound kinds.Security) (amount records.now kinds.Security) }
{
    weight_within(records.ports().weights().1, Kind::Security)
}

fn sets(records: &Records) -> Option<u64>
    ensures { result ≡ up_to (bound kinds.Set) (amount records.now kinds.Set) }
{
    let most = u64::from(bound(Kind::Set));
    add(records.sets().count(), records.groups().count(), most)
}

fn members(records: &Records) -> Option<u64>
    ensures { result ≡ up_to (bound kinds.Member) (amount records.now kinds.Member) }
{
    let sets = records.sets().weights().0;
    let members = sets.saturating_add(records.groups().weights().0);
    weight_within(members, Kind::Member)
}
