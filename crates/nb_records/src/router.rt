//! Routers, and what belongs to them.
use nv_base::{Ip4, Items, Mac, Name, ObjId, Prefix};

/// A router (ovn-nb(5), 'Logical_Router TABLE').
#[derive(Drop, PartialEq, Eq)]
pub struct Router {
    pub id: ObjId,
    pub name: Name,
    /// The numbers of its load balancers, in the order in which they were attached.
    pub lbs: Items<ObjId>,
}

/// A port of a router (ovn-nb(5), 'Logical_Router_Port TABLE').
#[derive(Drop, PartialEq, Eq)]
pub struct RouterPort {
    pub id: ObjId,
    /// The number of its router.
    pub router: ObjId,
    pub name: Name,
    pub mac: Mac,
    /// Its addresses, each with the length of its network.
    pub nets: Items<Prefix>,
    pub enabled: bool,
}

/// Which address of a packet a route looks at (ovn-nb(5), 'Logical_Router_Static_Route TABLE', policy).
#[derive(Clone, Copy, PartialEq, Eq, PartialOrd, Ord)]
pub enum RouteBy {
    /// `dst-ip`: the destination.
    Dst,
    /// `src-ip`: the source.
    Src,
}

/// A static route (ovn-nb(5), 'Logical_Router_Static_Route TABLE').
#[derive(Drop, PartialEq, Eq)]
pub struct Route {
    pub id: ObjId,
    /// The number of its router.
    pub router: ObjId,
    pub by: RouteBy,
    /// The addresses that it is for, its host part cleared.
    pub prefix: Prefix,
    pub nexthop: Ip4,
    /// The name of the router port by which packets leave, where one was given.
    pub port: Option<Name>,
}

/// How a NAT rule changes addresses (ovn-nb(5), 'NAT TABLE', type).
#[derive(Clone, Copy, PartialEq, Eq, PartialOrd, Ord)]
pub enum NatKind {
    /// `snat`: the source, of packets that leave.
    Snat,
    /// `dnat`: the destination, of packets that come in.
    Dnat,
    /// `dnat_and_snat`: both.
    DnatAndSnat,
}

/// A NAT rule (ovn-nb(5), 'NAT TABLE').
#[derive(Drop, PartialEq, Eq)]
pub struct Nat {
    pub id: ObjId,
    /// The number of its router.
    pub router: ObjId,
    pub kind: NatKind,
    pub external: Ip4,
    /// Of an `snat` rule a network, its host part cleared; of another one address, with length 32.
    pub logical: Prefix,
}

/// A static MAC binding (ovn-nb(5), 'Static_MAC_Binding TABLE').
#[derive(Drop, PartialEq, Eq)]
pub struct Binding {
    pub id: ObjId,
    /// The number of its router port.
    pub port: ObjId,
    pub addr: Ip4,
    pub mac: Mac,
}
