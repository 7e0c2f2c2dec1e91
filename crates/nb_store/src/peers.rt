//! Which port of a switch and which port of a router are peers.
ghost use Rattle.std.specs.Prelude.{◌≡◌, ◌&&◌, find, Some};
ghost use Rattle.std.specs.Option.{option_copied};
ghost use Rattle.nb_model.specs.Belongs.{is_name, is_to_router, peer_port, peer_router_port};
ghost use Rattle.nv_table.specs.Table.{NumbersRise, record_of};
ghost use Rattle.nb_store.specs.Places.{peer_of_port, peer_of_router_port};
ghost use Rattle.nb_store.specs.inner.Peers.{peer_name};

use crate::records::Records;
use nb_records::{Names, Port, PortKind, RouterPort};
use nv_base::{Name, ObjId};

impl Records {
    /// The port of the lowest number among those of kind Router whose option is this name.
    pub fn peer_named(&self, name: &Name) -> Option<&Port>
        ensures { option_copied result ≡ find (λ port. is_to_router port && is_name port.router_port name.now) self.now.ports }
    {
        self.ports.tagged(&Names(name), None)
    }

    /// The peer of a router port.
    pub fn peer_port(&self, port: &RouterPort) -> Option<&Port>
        ensures { option_copied result ≡ peer_port self.now port.now }
    {
        self.peer_named(&port.name)
    }

    /// The peer of a port of a switch, which is there.
    pub fn peer_router_port(&self, port: &Port) -> Option<&RouterPort>
        requires there { record_of (λ x. x.id) port.now.id self.now.ports ≡ Some port.now }
        requires rise { NumbersRise (λ x. x.id) self.now.ports }
        ensures { option_copied result ≡ peer_router_port self.now port.now }
    {
        let name = peer_name(port)?;
        let peer = self.peer_named(name)?;
        if peer.id == port.id {
            self.router_port_named(name)
        } else {
            None
        }
    }

    /// The number of the peer of the router port of this number.
    pub fn peer_of_router_port(&self, number: ObjId) -> Option<ObjId>
        ensures { result ≡ peer_of_router_port self.now number }
    {
        let port = self.router_ports.get(number)?;
        Some(self.peer_port(port)?.id)
    }

    /// The number of the peer of the switch port of this number.
    pub fn peer_of_port(&self, number: ObjId) -> Option<ObjId>
        ensures { result ≡ peer_of_port self.now number }
    {
        let port = self.ports.get(number)?;
        Some(self.peer_router_port(port)?.id)
    }
}

// The name that a port of kind Router has for its peer.
fn peer_name(port: &Port) -> Option<&Name>
    ensures { option_copied result ≡ peer_name port.now.kind port.now.router_port }
{
    match port.kind {
        PortKind::Router => port.router_port.as_ref(),
        PortKind::Host => None,
    }
}
