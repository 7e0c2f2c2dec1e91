//! The rows of the load balancers on a switch.
ghost use Rattle.std.specs.Prelude.{◌≡◌, ◌++◌, OnOk};
ghost use Rattle.std.specs.List.{flat_map};
ghost use Rattle.nd_inputs.specs.inner.Numbered.{of_number};
ghost use Rattle.nd_full.specs.inner.Made.{balancer_units};

use crate::made::MadeRows;
use nb_records::{Lb, Switch};
use nb_store::Records;
use nv_base::{ObjId, OutOfMemory};
use std::alloc::Global;

/// The rows of the load balancers that are attached to a switch come after the others.
pub(crate) fn add_rows_of_balancers(
    alloc: Global,
    made: &mut MadeRows,
    records: &Records,
    switch: &Switch,
) -> Result<(), OutOfMemory>
    ensures { OnOk result (made.new ≡ made.old ++ flat_map (of_number records.now (balancer_units switch.now.id)) switch.now.lbs) }
{
    for lb in switch.lbs.as_slice() {
        add_rows_of_number(alloc, made, records, switch.id, *lb)?;
    }
    Ok(())
}

// Those of the load balancer of this number.
fn add_rows_of_number(
    alloc: Global,
    made: &mut MadeRows,
    records: &Records,
    switch: ObjId,
    lb: ObjId,
) -> Result<(), OutOfMemory>
    ensures { OnOk result (made.new ≡ made.old ++ of_number records.now (balancer_units switch) lb) }
{
    match records.lbs().get(lb) {
        Some(lb) => add_rows_of_balancer(alloc, made, switch, lb),
        None => Ok(()),
    }
}

fn add_rows_of_balancer(
    alloc: Global,
    made: &mut MadeRows,
    switch: ObjId,
    lb: &Lb,
) -> Result<(), OutOfMemory>
    ensures { OnOk result (made.new ≡ made.old ++ balancer_units switch lb.now) }
{
    for vip in lb.vips.as_slice() {
        made.add_vip(alloc, switch, lb, vip)?;
    }
    Ok(())
}
