//! Objects by their names.
ghost use Rattle.std.specs.Prelude.{◌≡◌};
ghost use Rattle.std.specs.Option.{option_copied};
ghost use Rattle.nb_model.specs.Network.{switch_named, router_named, port_named, router_port_named, lb_named, set_named, group_named, switch_id, router_id, port_id, router_port_id, lb_id, group_id};
ghost use Rattle.nb_model.specs.Belongs.{owner_id};
ghost use Rattle.nv_table.specs.Table.{NumbersRise};

use crate::records::Records;
use nb_records::{AddrSet, Group, Lb, Named, OwnerKind, Port, Router, RouterPort, Switch};
use nv_base::{Name, ObjId};

impl Records {
    /// The switch of this name.
    pub fn switch_named(&self, name: &Name) -> Option<&Switch>
        ensures { option_copied result ≡ switch_named self.now name.now }
    {
        self.switches.tagged(&Named(name.as_slice()), None)
    }

    /// The router of this name.
    pub fn router_named(&self, name: &Name) -> Option<&Router>
        ensures { option_copied result ≡ router_named self.now name.now }
    {
        self.routers.tagged(&Named(name.as_slice()), None)
    }

    /// The switch port of this name.
    pub fn port_named(&self, name: &Name) -> Option<&Port>
        ensures { option_copied result ≡ port_named self.now name.now }
    {
        self.ports.tagged(&Named(name.as_slice()), None)
    }

    /// The router port of this name.
    pub fn router_port_named(&self, name: &Name) -> Option<&RouterPort>
        ensures { option_copied result ≡ router_port_named self.now name.now }
    {
        self.router_ports.tagged(&Named(name.as_slice()), None)
    }

    /// The load balancer of this name.
    pub fn lb_named(&self, name: &Name) -> Option<&Lb>
        ensures { option_copied result ≡ lb_named self.now name.now }
    {
        self.lbs.tagged(&Named(name.as_slice()), None)
    }

    /// The address set of this name.
    pub fn set_named(&self, name: &Name) -> Option<&AddrSet>
        ensures { option_copied result ≡ set_named self.now name.now }
    {
        self.set_of(name.as_slice())
    }

    /// The address set whose name has these bytes.
    pub(crate) fn set_of(&self, name: &[u8]) -> Option<&AddrSet>
        ensures { option_copied result ≡ set_named self.now name.now }
    {
        self.sets.tagged(&Named(name), None)
    }

    /// The port group of this name.
    pub fn group_named(&self, name: &Name) -> Option<&Group>
        ensures { option_copied result ≡ group_named self.now name.now }
    {
        self.group_of(name.as_slice())
    }

    /// The port group whose name has these bytes.
    pub(crate) fn group_of(&self, name: &[u8]) -> Option<&Group>
        ensures group { option_copied result ≡ group_named self.now name.now }
        ensures rise { NumbersRise (λ group. group.id) self.now.groups }
    {
        self.groups.tagged(&Named(name), None)
    }

    /// The number of the switch of this name.
    pub fn switch_id(&self, name: &Name) -> Option<ObjId>
        ensures { result ≡ switch_id self.now name.now }
    {
        Some(self.switch_named(name)?.id)
    }

    /// The number of the router of this name.
    pub fn router_id(&self, name: &Name) -> Option<ObjId>
        ensures { result ≡ router_id self.now name.now }
    {
        Some(self.router_named(name)?.id)
    }

    /// The number of the switch port of this name.
    pub fn port_id(&self, name: &Name) -> Option<ObjId>
        ensures { result ≡ port_id self.now name.now }
    {
        Some(self.port_named(name)?.id)
    }

    /// The number of the router port of this name.
    pub fn router_port_id(&self, name: &Name) -> Option<ObjId>
        ensures { result ≡ router_port_id self.now name.now }
    {
        Some(self.router_port_named(name)?.id)
    }

    /// The number of the load balancer of this name.
    pub fn lb_id(&self, name: &Name) -> Option<ObjId>
        ensures { result ≡ lb_id self.now name.now }
    {
        Some(self.lb_named(name)?.id)
    }

    /// The number of the port group of this name.
    pub fn group_id(&self, name: &Name) -> Option<ObjId>
        ensures { result ≡ group_id self.now name.now }
    {
        Some(self.group_named(name)?.id)
    }

    /// The number of the owner of ACLs of this name: of the kind that is given, else a switch before a group.
    pub fn owner_id(&self, of: Option<OwnerKind>, name: &Name) -> Option<ObjId>
        ensures { result ≡ owner_id self.now of name.now }
    {
        match of {
            Some(OwnerKind::Switch) => self.switch_id(name),
            Some(OwnerKind::Group) => self.group_id(name),
            None => self.switch_id(name).or_else(|| self.group_id(name)),
        }
    }
}
