//! The rows of the ports of a router, and of their static bindings.
ghost use Rattle.std.specs.Prelude.{◌≡◌, ◌++◌, map, filter, not, IfOk, OnOk};
ghost use Rattle.std.specs.List.{flat_map};
ghost use Rattle.lr_units.specs.Units.{bindings_of};
ghost use Rattle.nb_model.specs.Sound.{IsSound};
ghost use Rattle.nb_router.specs.Vocabulary.{is_address, ports_of};
ghost use Rattle.nd_router.specs.inner.Externals.{AreExternal};
ghost use Rattle.nd_router.specs.inner.Made.{binding_rows, port_rows, reached_rows, input_without, input_of_routes};

use crate::externals::is_address;
use crate::neighbours::put_neighbours;
use crate::unit::put_unit;
use lr_in::PortIn;
use lr_route::PortRoute;
use lr_rows::{PortInInput, PortRouteInput};
use nb_records::{Binding, RouterPort};
use nb_store::Records;
use nd_inputs::binding_input;
use nv_base::{Ip4, Items, Kept, ObjId, OutOfMemory, Prefix};
use sb_rows::NewRows;
use std::alloc::Global;

/// The rows of the ports of a router, of which these are the external addresses, come after the others.
pub(crate) fn put_ports(
    alloc: Global,
    rows: &mut NewRows,
    records: &Records,
    router: ObjId,
    external: &[Ip4],
) -> Result<(), OutOfMemory>
    requires sound { IsSound records.now }
    requires external { AreExternal records.now router external.now }
    ensures { OnOk result (rows.new ≡ rows.old ++ flat_map (port_rows records.now) (ports_of records.now router)) }
{
    let mut last = None;
    while let Some(port) = records.router_port_on(router, last) {
        put_port(alloc, rows, records, port, external)?;
        last = Some(port.id);
    }
    Ok(())
}

// The rows of a port come after the others.
fn put_port(
    alloc: Global,
    rows: &mut NewRows,
    records: &Records,
    port: &RouterPort,
    external: &[Ip4],
) -> Result<(), OutOfMemory>
    requires sound { IsSound records.now }
    requires external { AreExternal records.now port.now.router external.now }
    ensures { OnOk result (rows.new ≡ rows.old ++ port_rows records.now port.now) }
{
    put_reached(alloc, rows, port, external)?;
    put_bindings(alloc, rows, records, port)?;
    put_neighbours(alloc, rows, records, port)?;
    Ok(())
}

// What comes in by a port, what is routed to its networks, and what is delivered by it.
#[tactic(auto, unfolding(crate::specs::inner::Made::reached_rows))]
fn put_reached(
    alloc: Global,
    rows: &mut NewRows,
    port: &RouterPort,
    external: &[Ip4],
) -> Result<(), OutOfMemory>
    ensures { OnOk result (rows.new ≡ rows.old ++ reached_rows port.now.id (input_without external.now port.now)) }
{
    let entering = port_in_input(alloc, port, external)?;
    put_unit(alloc, rows, &PortIn, &port.id, &entering)?;
    let routed = input_of_routes(entering);
    put_unit(alloc, rows, &PortRoute, &port.id, &routed)?;
    Ok(())
}

fn port_in_input(
    alloc: Global,
    port: &RouterPort,
    external: &[Ip4],
) -> Result<PortInInput, OutOfMemory>
    ensures { IfOk result (λ input. input ≡ input_without external.now port.now) }
{
    Ok(PortInInput {
        dp: port.router,
        name: port.name.copy(alloc)?,
        enabled: port.enabled,
        mac: port.mac,
        nets: port.nets.copy(alloc)?,
        free: free_addresses(alloc, port.nets.as_slice(), external)?,
    })
}

// The addresses of these networks that are none of the external ones.
fn free_addresses(
    alloc: Global,
    nets: &[Prefix],
    external: &[Ip4],
) -> Result<Items<Ip4>, OutOfMemory>
    ensures { IfOk result (λ free. free ≡ filter (λ addr. not (is_address addr external.now)) (map (λ net. net.base) nets.now)) }
{
    let mut free = Items::new(alloc);
    for net in nets {
        if !is_address(net.base, external) {
            free.push(net.base)?;
        }
    }
    Ok(free)
}

// What is routed depends on no more than what comes in does.
fn input_of_routes(input: PortInInput) -> PortRouteInput
    ensures { result ≡ input_of_routes input }
{
    PortRouteInput {
        dp: input.dp,
        name: input.name,
        enabled: input.enabled,
        mac: input.mac,
        nets: input.nets,
    }
}

// The rows of the static bindings of a port come after the others.
fn put_bindings(
    alloc: Global,
    rows: &mut NewRows,
    records: &Records,
    port: &RouterPort,
) -> Result<(), OutOfMemory>
    requires { IsSound records.now }
    ensures { OnOk result (rows.new ≡ rows.old ++ flat_map (binding_rows port.now) (bindings_of records.now port.now)) }
{
    let mut last = None;
    while let Some(binding) = records.binding_of(port.id, last) {
        put_binding(alloc, rows, port, binding)?;
        last = Some(binding.id);
    }
    Ok(())
}

#[tactic(auto, unfolding(crate::specs::inner::Made::binding_rows))]
fn put_binding(
    alloc: Global,
    rows: &mut NewRows,
    port: &RouterPort,
    binding: &Binding,
) -> Result<(), OutOfMemory>
    ensures { OnOk result (rows.new ≡ rows.old ++ binding_rows port.now binding.now) }
{
    let input = binding_input(alloc, port, binding)?;
    put_unit(alloc, rows, &lr_route::Binding, &binding.id, &input)
}
