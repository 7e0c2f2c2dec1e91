//! The rows on a router.
ghost use Rattle.std.specs.Prelude.{◌≡◌, ◌++◌, Some, IfOk, OnOk};
ghost use Rattle.nb_model.specs.Sound.{IsSound};
ghost use Rattle.nv_table.specs.Table.{record_of};
ghost use Rattle.nd_router.specs.Members.{HaveSameRows};
ghost use Rattle.nd_router.specs.Router.{rows_on};
ghost use Rattle.nd_router.specs.inner.Made.{own_rows};

use crate::balancers::put_balancers;
use crate::externals::external_addresses;
use crate::nats::put_nats;
use crate::ports::put_ports;
use crate::routes::put_routes;
use crate::unit::put_unit;
use lr_in::RouterIn;
use lr_nat::RouterNat;
use lr_route::RouterRoute;
use nb_records::Router;
use nb_store::Records;
use nd_inputs::router_nat_input;
use nv_base::OutOfMemory;
use sb_rows::{NewRows, RowList};
use std::alloc::Global;

/// The rows on a router, in the order of datapath, stage, priority and hint: those of its units, of its ports and of those across them, of its routes, of its NAT rules, and
/// of the load balancers attached to it; some maybe twice. Where memory runs out the answer is `OutOfMemory`.
pub fn rows_of_router(
    alloc: Global,
    records: &Records,
    router: &Router,
) -> Result<RowList, OutOfMemory>
    requires sound { IsSound records.now }
    requires there { record_of (λ x. x.id) router.now.id records.now.routers ≡ Some router.now }
    ensures { IfOk result (λ list. HaveSameRows list (rows_on records.now router.now.id)) }
{
    let external = external_addresses(alloc, records, router)?;
    let mut rows = NewRows::new(alloc);
    put_own(alloc, &mut rows, records, router)?;
    put_ports(alloc, &mut rows, records, router.id, &external)?;
    put_routes(alloc, &mut rows, records, router.id)?;
    put_nats(alloc, &mut rows, records, router.id)?;
    put_balancers(alloc, &mut rows, records, router)?;
    rows.into_list_by_key()
}

// The rows of the units of the router itself come after the others.
fn put_own(
    alloc: Global,
    rows: &mut NewRows,
    records: &Records,
    router: &Router,
) -> Result<(), OutOfMemory>
    requires sound { IsSound records.now }
    requires there { record_of (λ x. x.id) router.now.id records.now.routers ≡ Some router.now }
    ensures { OnOk result (rows.new ≡ rows.old ++ own_rows records.now router.now.id) }
{
    put_unit(alloc, rows, &RouterIn, &router.id, &())?;
    put_unit(alloc, rows, &RouterRoute, &router.id, &())?;
    put_unit(
        alloc,
        rows,
        &RouterNat,
        &router.id,
        &router_nat_input(records, router),
    )?;
    Ok(())
}
