//! The rows of routers, those between two switches.
ghost use Rattle.std.specs.Prelude.{◌≡◌, ◌&&◌, ◌++◌, find, OnOk};
ghost use Rattle.std.specs.Option.{option_copied};
ghost use Rattle.nb_model.specs.Sound.{IsSound};
ghost use Rattle.nv_table.specs.Table.{is_after};
ghost use Rattle.nd_router.specs.Members.{HaveSameRows};
ghost use Rattle.nd_full.specs.inner.Between.{is_before, routers_between, rows_of_each};

use nb_records::Router;
use nb_store::Records;
use nd_router::rows_of_router;
use nv_base::{ObjId, OutOfMemory};
use sb_rows::NewRows;
use std::alloc::Global;

/// The rows of the routers of numbers above one and below another, where these are given, come after the others, one router after the
/// other.
pub(crate) fn add_rows_of_routers(
    alloc: Global,
    made: &mut NewRows,
    records: &Records,
    after: Option<ObjId>,
    before: Option<ObjId>,
) -> Result<(), OutOfMemory>
    requires { IsSound records.now }
    ensures { OnOk result (HaveSameRows made.new (made.old ++ rows_of_each records.now (routers_between records.now after before))) }
{
    let mut last = after;
    while let Some(router) = router_between(records, last, before) {
        made.append(rows_of_router(alloc, records, router)?)?;
        last = Some(router.id);
    }
    Ok(())
}

// The router of the least such number.
fn router_between(records: &Records, after: Option<ObjId>, before: Option<ObjId>) -> Option<&Router>
    ensures { option_copied result ≡ find (λ router. is_after after router.id && is_before before router.id) records.now.routers }
{
    let router = records.routers().after(after)?;
    if is_before(before, router.id) {
        Some(router)
    } else {
        None
    }
}

fn is_before(limit: Option<ObjId>, number: ObjId) -> bool
    ensures { result ≡ is_before limit number }
{
    match limit {
        Some(limit) => number.0 < limit.0,
        None => true,
    }
}
