//! The inputs of units of routers: all that their rows depend on beside their keys.
use nb_records::{NatKind, RouteBy};
use nv_base::{Ip4, Items, Mac, Name, ObjId, Prefix};

/// What comes in by a router port. The key is the port.
#[derive(Drop, PartialEq, Eq)]
pub struct PortInInput {
    /// The number of its router.
    pub dp: ObjId,
    pub name: Name,
    pub enabled: bool,
    pub mac: Mac,
    /// Its addresses, each with the length of its network.
    pub nets: Items<Prefix>,
    /// Those of its addresses that are neither the external address of a NAT rule nor a VIP of its router.
    pub free: Items<Ip4>,
}

/// What is routed to the networks of a router port and delivered by it. The key is the port.
#[derive(Drop, PartialEq, Eq)]
pub struct PortRouteInput {
    /// The number of its router.
    pub dp: ObjId,
    pub name: Name,
    pub enabled: bool,
    pub mac: Mac,
    /// Its addresses, each with the length of its network.
    pub nets: Items<Prefix>,
}

/// How packets leave by a router port.
#[derive(Drop, PartialEq, Eq)]
pub struct Exit {
    /// The name of the port.
    pub name: Name,
    /// Its MAC.
    pub mac: Mac,
    /// The address of the port from which the next host is asked for its MAC.
    pub addr: Ip4,
}

/// A static route. The key is the route.
#[derive(Drop, PartialEq, Eq)]
pub struct StaticRouteInput {
    /// The number of its router.
    pub dp: ObjId,
    pub by: RouteBy,
    /// The addresses that it is for.
    pub prefix: Prefix,
    pub nexthop: Ip4,
    /// The port by which packets leave, where one is found.
    pub found: Option<Exit>,
}

/// A host at the other side of a router port: an address, and the MAC that has it.
#[derive(Clone, Copy, PartialEq, Eq)]
pub struct Host {
    pub mac: Mac,
    pub addr: Ip4,
}

/// A static MAC binding. The key is the binding.
#[derive(Drop, PartialEq, Eq)]
pub struct BindingInput {
    /// The number of the router of its port.
    pub dp: ObjId,
    /// The name of its port.
    pub name: Name,
    pub host: Host,
}

/// What a router port knows of a port of the switch at its other side. The key is both, the router port first.
#[derive(Drop, PartialEq, Eq)]
pub struct NeighbourInput {
    /// The number of the router.
    pub dp: ObjId,
    /// The name of the router port.
    pub name: Name,
    /// The addresses of the other port, each with its MAC.
    pub hosts: Items<Host>,
}

/// The network address translation of a router. The key is the router.
#[derive(Clone, Copy, PartialEq, Eq)]
pub struct RouterNatInput {
    /// Whether a NAT rule or a load balancer of the router changes destinations.
    pub dnats: bool,
}

/// A NAT rule. The key is the rule.
#[derive(Clone, Copy, PartialEq, Eq)]
pub struct NatRuleInput {
    /// The number of its router.
    pub dp: ObjId,
    pub kind: NatKind,
    pub external: Ip4,
    /// Of an `snat` rule a network, of another one address.
    pub logical: Prefix,
}

/// An address of the VIPs of a load balancer at a router. The key is the load balancer, the address and the router.
#[derive(Clone, Copy, PartialEq, Eq)]
pub struct VipAddrInput {
    /// The address, as in the key.
    pub addr: Ip4,
}
