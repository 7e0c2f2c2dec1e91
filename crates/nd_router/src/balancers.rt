//! The rows of the load balancers at a router.
ghost use Rattle.std.specs.Prelude.{◌≡◌, ◌++◌, OnOk};
ghost use Rattle.std.specs.List.{flat_map};
ghost use Rattle.nd_router.specs.inner.Made.{balancer_rows, vip_rows};
ghost use Rattle.nd_inputs.specs.inner.Numbered.{of_number};

use crate::unit::put_unit;
use lr_nat::{VipAddr, VipRouter};
use lr_rows::VipAddrInput;
use nb_records::{Lb, Router, Vip};
use nb_store::Records;
use net_rows::vip_input;
use nv_base::{ObjId, OutOfMemory};
use sb_rows::NewRows;
use std::alloc::Global;

/// The rows of the load balancers that are attached to a router come after the others.
pub(crate) fn put_balancers(
    alloc: Global,
    rows: &mut NewRows,
    records: &Records,
    router: &Router,
) -> Result<(), OutOfMemory>
    ensures { OnOk result (rows.new ≡ rows.old ++ flat_map (of_number records.now (balancer_rows router.now.id)) router.now.lbs) }
{
    for lb in router.lbs.as_slice() {
        put_numbered(alloc, rows, records, router.id, *lb)?;
    }
    Ok(())
}

// Those of the load balancer of this number.
fn put_numbered(
    alloc: Global,
    rows: &mut NewRows,
    records: &Records,
    router: ObjId,
    lb: ObjId,
) -> Result<(), OutOfMemory>
    ensures { OnOk result (rows.new ≡ rows.old ++ of_number records.now (balancer_rows router) lb) }
{
    match records.lbs().get(lb) {
        Some(lb) => put_balancer(alloc, rows, router, lb),
        None => Ok(()),
    }
}

fn put_balancer(
    alloc: Global,
    rows: &mut NewRows,
    router: ObjId,
    lb: &Lb,
) -> Result<(), OutOfMemory>
    ensures { OnOk result (rows.new ≡ rows.old ++ balancer_rows router lb.now) }
{
    for vip in lb.vips.as_slice() {
        put_vip(alloc, rows, router, lb, vip)?;
    }
    Ok(())
}

// The rows of a VIP, and those of its address: where another VIP has that too, they come twice.
#[tactic(auto, unfolding(crate::specs::inner::Made::vip_rows))]
fn put_vip(
    alloc: Global,
    rows: &mut NewRows,
    router: ObjId,
    lb: &Lb,
    vip: &Vip,
) -> Result<(), OutOfMemory>
    ensures { OnOk result (rows.new ≡ rows.old ++ vip_rows router lb.now vip.now) }
{
    let input = vip_input(alloc, lb, vip)?;
    put_unit(alloc, rows, &VipRouter, &(lb.id, vip.at, router), &input)?;
    let addr = vip.at.addr;
    let input = VipAddrInput { addr };
    put_unit(alloc, rows, &VipAddr, &(lb.id, addr, router), &input)?;
    Ok(())
}
