//! The readers of the tables.
ghost use Rattle.std.specs.Prelude.{◌≡◌, ◌+◌, ◌<◌, IsTrue};
ghost use Rattle.nv_base.specs.Object.{number_limit};
ghost use Rattle.nb_store.specs.Places.{port_of, datapath_of, on_datapath, peer_of};

use crate::records::Records;
use nb_records::{Acl, AddrSet, Binding, Group, Lb, Nat, Port, Route, Router, RouterPort, Switch};
use nv_base::{NUMBER_LIMIT, Name, ObjId};
use nv_table::Table;

impl Records {
    /// The switches, by rising number.
    pub fn switches(&self) -> &Table<Switch>
        ensures { result.now ≡ self.now.switches }
    {
        &self.switches
    }

    /// The ports of switches, by rising number.
    pub fn ports(&self) -> &Table<Port>
        ensures { result.now ≡ self.now.ports }
    {
        &self.ports
    }

    /// The routers, by rising number.
    pub fn routers(&self) -> &Table<Router>
        ensures { result.now ≡ self.now.routers }
    {
        &self.routers
    }

    /// The ports of routers, by rising number.
    pub fn router_ports(&self) -> &Table<RouterPort>
        ensures { result.now ≡ self.now.router_ports }
    {
        &self.router_ports
    }

    /// The static routes, by rising number.
    pub fn routes(&self) -> &Table<Route>
        ensures { result.now ≡ self.now.routes }
    {
        &self.routes
    }

    /// The NAT rules, by rising number.
    pub fn nats(&self) -> &Table<Nat>
        ensures { result.now ≡ self.now.nats }
    {
        &self.nats
    }

    /// The load balancers, by rising number.
    pub fn lbs(&self) -> &Table<Lb>
        ensures { result.now ≡ self.now.lbs }
    {
        &self.lbs
    }

    /// The ACLs, by rising number.
    pub fn acls(&self) -> &Table<Acl>
        ensures { result.now ≡ self.now.acls }
    {
        &self.acls
    }

    /// The address sets, by rising number.
    pub fn sets(&self) -> &Table<AddrSet>
        ensures { result.now ≡ self.now.sets }
    {
        &self.sets
    }

    /// The port groups, by rising number.
    pub fn groups(&self) -> &Table<Group>
        ensures { result.now ≡ self.now.groups }
    {
        &self.groups
    }

    /// The static bindings, by rising number.
    pub fn bindings(&self) -> &Table<Binding>
        ensures { result.now ≡ self.now.bindings }
    {
        &self.bindings
    }

    /// The number that the next object gets.
    pub fn next(&self) -> u32
        ensures { result ≡ self.now.next }
    {
        self.next
    }

    /// Whether there are numbers for so many more objects.
    pub fn has_room(&self, count: usize) -> bool
        ensures { IsTrue result → self.now.next + count < number_limit }
    {
        let limit = NUMBER_LIMIT as usize;
        count < limit && (self.next as usize) < limit - count
    }

    /// The number of the port of a switch or of a router that has this name.
    pub fn port_of(&self, name: &Name) -> Option<ObjId>
        ensures { result ≡ port_of self.now name.now }
    {
        self.port_id(name).or_else(|| self.router_port_id(name))
    }

    /// The number of the switch or of the router that has this name.
    pub fn datapath_of(&self, name: &Name) -> Option<ObjId>
        ensures { result ≡ datapath_of self.now name.now }
    {
        self.switch_id(name).or_else(|| self.router_id(name))
    }

    /// The number of the switch or of the router that has the port of this number.
    pub fn on_datapath(&self, port: ObjId) -> Option<ObjId>
        ensures { result ≡ on_datapath self.now port }
    {
        match self.ports.get(port) {
            Some(port) => Some(port.switch),
            None => Some(self.router_ports.get(port)?.router),
        }
    }

    /// The number of the peer of the port of this number. The peer of a router port is the lowest-numbered port of a switch of
    /// kind Router whose option `router-port` names it, and that port's peer is the router port; others have none (not from OVN).
    pub fn peer_of(&self, port: ObjId) -> Option<ObjId>
        ensures { result ≡ peer_of self.now port }
    {
        self.peer_of_router_port(port)
            .or_else(|| self.peer_of_port(port))
    }
}
