//! How many VIPs and backends load balancers have (not from OVN).
ghost use Rattle.std.specs.Prelude.{◌≡◌, length};
ghost use Rattle.nb_limits.specs.inner.Attached.{attached, switches_with, routers_with};
ghost use Rattle.nb_limits.specs.Limitless.{IsSoundButLimits};
ghost use Rattle.nb_limits.specs.inner.Within.{up_to};
ghost use Rattle.nb_records.specs.declared.refusal.Kind.TheVariants as kind;
ghost use Rattle.nb_model.specs.Amounts.{amount, greatest};

use crate::within::add;
use nb_records::Lb;
use nb_store::Records;
use nv_base::ObjId;

/// The most VIPs that a load balancer has.
pub(crate) fn vip_count(records: &Records) -> u64
    ensures { result ≡ amount records.now kind.Vip }
{
    let mut most = 0;
    let mut after = None;
    while let Some(lb) = records.lbs().after(after) {
        most = most.max(lb.vips.as_slice().len() as u64);
        after = Some(lb.id);
    }
    most
}

/// The most backends that a VIP has.
pub(crate) fn backend_count(records: &Records) -> u64
    ensures { result ≡ amount records.now kind.Backend }
{
    let mut most = 0;
    let mut after = None;
    while let Some(lb) = records.lbs().after(after) {
        most = most.max(most_backends(lb));
        after = Some(lb.id);
    }
    most
}

// The most that a VIP of the load balancer has.
fn most_backends(lb: &Lb) -> u64
    ensures { result ≡ greatest (λ vip. length vip.backends) lb.now.vips }
{
    let mut most = 0;
    for vip in lb.vips.as_slice() {
        most = most.max(vip.backends.as_slice().len() as u64);
    }
    most
}

/// How many VIPs there are, each counted once for each datapath that has its load balancer, where they are within the bound.
pub(crate) fn vip_datapaths(records: &Records, bound: u64) -> Option<u64>
    requires limitless { IsSoundButLimits records.now }
    ensures { result ≡ up_to bound (amount records.now kind.VipDatapath) }
{
    let mut sum = 0;
    let mut after = None;
    while let Some(lb) = records.lbs().after(after) {
        let vips = lb.vips.as_slice().len() as u64;
        let more = attached(records, lb.id, vips, bound)?;
        sum = add(sum, more, bound)?;
        after = Some(lb.id);
    }
    Some(sum)
}

/// So many for each datapath that has the load balancer of this number, where they are within the bound.
pub(crate) fn attached(records: &Records, lb: ObjId, each: u64, bound: u64) -> Option<u64>
    requires limitless { IsSoundButLimits records.now }
    ensures { result ≡ up_to bound (attached records.now lb each) }
{
    let switches = switches_with(records, lb, each, bound)?;
    let routers = routers_with(records, lb, each, bound)?;
    add(switches, routers, bound)
}

// So many for each switch that has it.
fn switches_with(records: &Records, lb: ObjId, each: u64, bound: u64) -> Option<u64>
    requires limitless { IsSoundButLimits records.now }
    ensures { result ≡ up_to bound (switches_with records.now lb each) }
{
    let mut sum = 0;
    let mut after = None;
    while let Some(switch) = records.switch_with(lb, after) {
        sum = add(sum, each, bound)?;
        after = Some(switch.id);
    }
    Some(sum)
}

// So many for each router that has it.
fn routers_with(records: &Records, lb: ObjId, each: u64, bound: u64) -> Option<u64>
    requires limitless { IsSoundButLimits records.now }
    ensures { result ≡ up_to bound (routers_with records.now lb each) }
{
    let mut sum = 0;
    let mut after = None;
    while let Some(router) = records.router_with(lb, after) {
        sum = add(sum, each, bound)?;
        after = Some(router.id);
    }
    Some(sum)
}
