//! Switches and their ports.
use nv_base::{Ip4, Items, Mac, Name, ObjId, Prefix};

/// A switch (ovn-nb(5), 'Logical_Switch TABLE').
#[derive(Drop, PartialEq, Eq)]
pub struct Switch {
    pub id: ObjId,
    pub name: Name,
    /// The numbers of its load balancers, in the order in which they were attached.
    pub lbs: Items<ObjId>,
}

/// What is at the other side of a switch port (ovn-nb(5), 'Logical_Switch_Port TABLE', type).
#[derive(Clone, Copy, PartialEq, Eq)]
pub enum PortKind {
    /// A host.
    Host,
    /// A router port.
    Router,
}

/// An address of a switch port (ovn-nb(5), 'Logical_Switch_Port TABLE', addresses).
#[derive(Drop, PartialEq, Eq)]
pub enum Addr {
    /// `unknown`: whatever no other port has.
    Unknown,
    /// `router`: what the router port at the other side has.
    Router,
    /// A MAC, and the IPv4 addresses that go with it.
    Host { mac: Mac, ips: Items<Ip4> },
}

/// What a switch port may send and get (ovn-nb(5), 'Logical_Switch_Port TABLE', port_security).
#[derive(Drop, PartialEq, Eq)]
pub struct Guard {
    pub mac: Mac,
    /// Addresses and networks, each with the host part that it was given. Where there are none, all are allowed.
    pub nets: Items<Prefix>,
}

/// A port of a switch (ovn-nb(5), 'Logical_Switch_Port TABLE').
#[derive(Drop, PartialEq, Eq)]
pub struct Port {
    pub id: ObjId,
    /// The number of its switch.
    pub switch: ObjId,
    pub name: Name,
    pub kind: PortKind,
    /// The option `router-port`: the name of a router port, which need not be there.
    pub router_port: Option<Name>,
    pub addresses: Items<Addr>,
    pub security: Items<Guard>,
    pub enabled: bool,
}
