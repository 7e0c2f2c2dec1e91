//! The rows of the static routes of a router.
ghost use Rattle.std.specs.Prelude.{◌≡◌, ◌++◌, OnOk};
ghost use Rattle.std.specs.List.{flat_map};
ghost use Rattle.nb_model.specs.Sound.{IsSound};
ghost use Rattle.nd_router.specs.inner.Made.{route_rows, routes_of};

use crate::unit::put_unit;
use lr_route::StaticRoute;
use nb_records::Route;
use nb_store::Records;
use nd_inputs::static_route_input;
use nv_base::{ObjId, OutOfMemory};
use sb_rows::NewRows;
use std::alloc::Global;

/// The rows of the static routes of a router come after the others.
pub(crate) fn put_routes(
    alloc: Global,
    rows: &mut NewRows,
    records: &Records,
    router: ObjId,
) -> Result<(), OutOfMemory>
    requires { IsSound records.now }
    ensures { OnOk result (rows.new ≡ rows.old ++ flat_map (route_rows records.now) (routes_of records.now router)) }
{
    let mut last = None;
    while let Some(route) = records.route_of(router, last) {
        put_route(alloc, rows, records, route)?;
        last = Some(route.id);
    }
    Ok(())
}

#[tactic(auto, unfolding(crate::specs::inner::Made::route_rows))]
fn put_route(
    alloc: Global,
    rows: &mut NewRows,
    records: &Records,
    route: &Route,
) -> Result<(), OutOfMemory>
    requires { IsSound records.now }
    ensures { OnOk result (rows.new ≡ rows.old ++ route_rows records.now route.now) }
{
    let input = static_route_input(alloc, records, route)?;
    put_unit(alloc, rows, &StaticRoute, &route.id, &input)
}
