//! The rows of the ports across a router port.
ghost use Rattle.std.specs.Prelude.{◌≡◌, ◌++◌, Some, OnOk};
ghost use Rattle.std.specs.List.{flat_map};
ghost use Rattle.lr_units.specs.Words.{beside};
ghost use Rattle.nb_model.specs.Sound.{IsSound};
ghost use Rattle.nv_table.specs.Table.{record_of};
ghost use Rattle.nd_router.specs.inner.Made.{neighbour_rows, rows_across, rows_if_other};

use crate::unit::put_unit;
use lr_route::Neighbour;
use nb_records::{Port, RouterPort};
use nb_store::Records;
use nd_inputs::neighbour_input;
use nv_base::OutOfMemory;
use sb_rows::NewRows;
use std::alloc::Global;

/// The rows of a router port and each port across it come after the others.
pub(crate) fn put_neighbours(
    alloc: Global,
    rows: &mut NewRows,
    records: &Records,
    port: &RouterPort,
) -> Result<(), OutOfMemory>
    requires { IsSound records.now }
    ensures { OnOk result (rows.new ≡ rows.old ++ rows_across records.now port.now) }
{
    match records.peer_port(port) {
        Some(peer) => put_beside(alloc, rows, records, port, peer),
        None => Ok(()),
    }
}

// Those of the ports beside the router port's peer.
fn put_beside(
    alloc: Global,
    rows: &mut NewRows,
    records: &Records,
    port: &RouterPort,
    peer: &Port,
) -> Result<(), OutOfMemory>
    requires { IsSound records.now }
    ensures { OnOk result (rows.new ≡ rows.old ++ flat_map (neighbour_rows records.now port.now) (beside records.now (Some peer.now))) }
{
    let mut last = None;
    while let Some(other) = records.port_on(peer.switch, last) {
        put_if_other(alloc, rows, records, port, peer, other)?;
        last = Some(other.id);
    }
    Ok(())
}

// Those of a port of the peer's switch, where it is enabled and not the peer.
fn put_if_other(
    alloc: Global,
    rows: &mut NewRows,
    records: &Records,
    port: &RouterPort,
    peer: &Port,
    other: &Port,
) -> Result<(), OutOfMemory>
    requires sound { IsSound records.now }
    requires there { record_of (λ x. x.id) other.now.id records.now.ports ≡ Some other.now }
    ensures { OnOk result (rows.new ≡ rows.old ++ rows_if_other records.now port.now peer.now other.now) }
{
    if other.enabled && other.id != peer.id {
        put_neighbour(alloc, rows, records, port, other)
    } else {
        Ok(())
    }
}

#[tactic(auto, unfolding(crate::specs::inner::Made::neighbour_rows))]
fn put_neighbour(
    alloc: Global,
    rows: &mut NewRows,
    records: &Records,
    port: &RouterPort,
    other: &Port,
) -> Result<(), OutOfMemory>
    requires sound { IsSound records.now }
    requires there { record_of (λ x. x.id) other.now.id records.now.ports ≡ Some other.now }
    ensures { OnOk result (rows.new ≡ rows.old ++ neighbour_rows records.now port.now other.now) }
{
    let input = neighbour_input(alloc, records, port, other)?;
    put_unit(alloc, rows, &Neighbour, &(port.id, other.id), &input)
}
