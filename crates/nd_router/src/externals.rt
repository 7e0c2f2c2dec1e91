//! The external addresses of a router: those of its NAT rules, and those of the VIPs of its load balancers.
ghost use Rattle.std.specs.Prelude.{◌≡◌, ◌++◌, map, Some, IfOk, OnOk};
ghost use Rattle.std.specs.List.{flat_map};
ghost use Rattle.nb_model.specs.Sound.{IsSound};
ghost use Rattle.nb_router.specs.Vocabulary.{is_address, nats_of, vip_addresses};
ghost use Rattle.nv_table.specs.Table.{record_of};
ghost use Rattle.nd_router.specs.inner.Externals.{AreExternal};
ghost use Rattle.nd_inputs.specs.inner.Numbered.{of_number};

use nb_records::{Router, Vip};
use nb_store::Records;
use nv_base::{Ip4, ObjId, OutOfMemory};
use std::alloc::Global;

/// The external addresses of a router, some maybe twice.
pub(crate) fn external_addresses(
    alloc: Global,
    records: &Records,
    router: &Router,
) -> Result<Vec<Ip4>, OutOfMemory>
    requires sound { IsSound records.now }
    requires there { record_of (λ x. x.id) router.now.id records.now.routers ≡ Some router.now }
    ensures { IfOk result (λ addrs. AreExternal records.now router.now.id addrs.items) }
{
    let mut addrs = Vec::new(alloc);
    add_addresses_of_nats(&mut addrs, records, router.id)?;
    add_addresses_of_vips(&mut addrs, records, router.lbs.as_slice())?;
    Ok(addrs)
}

fn add_addresses_of_nats(
    addrs: &mut Vec<Ip4>,
    records: &Records,
    router: ObjId,
) -> Result<(), OutOfMemory>
    requires { IsSound records.now }
    ensures { OnOk result (addrs.new.items ≡ addrs.old.items ++ map (λ nat. nat.external) (nats_of records.now router)) }
{
    let mut last = None;
    while let Some(nat) = records.nat_of(router, last) {
        addrs.push(nat.external)?;
        last = Some(nat.id);
    }
    Ok(())
}

fn add_addresses_of_vips(
    addrs: &mut Vec<Ip4>,
    records: &Records,
    lbs: &[ObjId],
) -> Result<(), OutOfMemory>
    ensures { OnOk result (addrs.new.items ≡ addrs.old.items ++ flat_map (of_number records.now vip_addresses) lbs.now) }
{
    for lb in lbs {
        add_addresses_of(addrs, records, *lb)?;
    }
    Ok(())
}

// Those of the VIPs of the load balancer of this number.
fn add_addresses_of(addrs: &mut Vec<Ip4>, records: &Records, lb: ObjId) -> Result<(), OutOfMemory>
    ensures { OnOk result (addrs.new.items ≡ addrs.old.items ++ of_number records.now vip_addresses lb) }
{
    match records.lbs().get(lb) {
        Some(lb) => add_each(addrs, lb.vips.as_slice()),
        None => Ok(()),
    }
}

fn add_each(addrs: &mut Vec<Ip4>, vips: &[Vip]) -> Result<(), OutOfMemory>
    ensures { OnOk result (addrs.new.items ≡ addrs.old.items ++ map (λ vip. vip.at.addr) vips.now) }
{
    for vip in vips {
        addrs.push(vip.at.addr)?;
    }
    Ok(())
}

/// Whether the address is one of these.
pub(crate) fn is_address(addr: Ip4, addrs: &[Ip4]) -> bool
    ensures { result ≡ is_address addr addrs.now }
{
    addrs.iter().any(|other| other.0 == addr.0)
}
