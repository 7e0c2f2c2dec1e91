//! The inputs of the units of a port of a router, and of its static bindings.
ghost use Rattle.std.specs.Prelude.{◌≡◌, IfOk};
ghost use Rattle.lr_units.specs.Units.{binding_input, port_route_input};

use lr_rows::{BindingInput, Host, PortRouteInput};
use nb_records::{Binding, RouterPort};
use nv_base::{Kept, OutOfMemory};
use std::alloc::Global;

/// The input of what is routed to the networks of a port, and delivered by it. Where memory runs out the answer is `OutOfMemory`.
pub fn port_route_input(alloc: Global, port: &RouterPort) -> Result<PortRouteInput, OutOfMemory>
    ensures { IfOk result (λ input. input ≡ port_route_input port.now) }
{
    Ok(PortRouteInput {
        dp: port.router,
        name: port.name.copy(alloc)?,
        enabled: port.enabled,
        mac: port.mac,
        nets: port.nets.copy(alloc)?,
    })
}

/// The input of a static binding of a port. Where memory runs out the answer is `OutOfMemory`.
pub fn binding_input(
    alloc: Global,
    port: &RouterPort,
    binding: &Binding,
) -> Result<BindingInput, OutOfMemory>
    ensures { IfOk result (λ input. input ≡ binding_input port.now binding.now) }
{
    Ok(BindingInput {
        dp: port.router,
        name: port.name.copy(alloc)?,
        host: Host {
            mac: binding.mac,
            addr: binding.addr,
        },
    })
}
