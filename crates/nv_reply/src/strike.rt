//! What the state holds of objects that are gone is struck out. It takes no memory.
ghost use Rattle.std.specs.Prelude.{◌≡◌};
ghost use Rattle.nv_reply.specs.inner.StruckObjects.{struck_objects, struck_ports, struck_router_ports, struck_routers};

use ct_state::State;
use nb_check::GoneObjects;
use nv_base::ObjId;

/// Strikes out what the state holds of objects that are gone.
pub(crate) fn strike_objects(state: &mut State, gone: &GoneObjects)
    ensures { state.new ≡ struck_objects gone.now state.old }
{
    strike_ports(state, gone.ports.as_slice());
    strike_routers(state, gone.routers.as_slice());
    strike_router_ports(state, gone.router_ports.as_slice());
}

// Strikes out the connections of the zones of these ports of switches. Where a zone has none, it costs one look.
fn strike_ports(state: &mut State, ports: &[ObjId])
    ensures { state.new ≡ struck_ports ports.now state.old }
{
    for port in ports {
        state.strike_port(*port);
    }
}

// Strikes out the connections of both zones of these routers. Where a zone has none, it costs one look.
fn strike_routers(state: &mut State, routers: &[ObjId])
    ensures { state.new ≡ struck_routers routers.now state.old }
{
    for router in routers {
        state.strike_router(*router);
    }
}

// Strikes out what these ports of routers have learnt of their neighbours. Each port costs by the number of neighbours that are known.
fn strike_router_ports(state: &mut State, ports: &[ObjId])
    ensures { state.new ≡ struck_router_ports ports.now state.old }
{
    for port in ports {
        state.strike_router_port(*port);
    }
}
