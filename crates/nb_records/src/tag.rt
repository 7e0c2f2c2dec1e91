//! What records are found by, beside their numbers.
use crate::{RouteBy, Way};
use nv_base::{Ip4, Name, ObjId};

/// What only one record of an owner may say.
#[derive(Clone, Copy, PartialEq, Eq, PartialOrd, Ord)]
pub enum Rule {
    /// A route of this policy, for the addresses of this prefix.
    Route {
        by: RouteBy,
        base: Ip4,
        len: u8,
    },
    /// An `snat` rule for the addresses of this prefix.
    Snat {
        base: Ip4,
        len: u8,
    },
    /// A NAT rule of another kind, at this external address.
    Dnat(Ip4),
    /// An ACL of this direction and priority, whose match has this digest. Several may say this: they differ in their matches.
    Acl {
        way: Way,
        priority: u16,
        digest: u64,
    },
    /// A static binding of this address.
    Binding(Ip4),
}

/// What a record is found by, beside its number.
#[derive(Drop, PartialEq, Eq, PartialOrd, Ord)]
pub enum Tag {
    /// Its name.
    Named(Name),
    /// The object that it belongs to: the switch or the router of a port, the router of a route or a NAT rule, the owner of an ACL,
    /// the router port of a binding.
    Of(ObjId),
    /// The router port that a port of kind Router has for its peer, by name.
    Names(Name),
    /// An object that it lists: a load balancer of a switch or a router, a port of a group.
    Lists(ObjId),
    /// What it says of its owner.
    Says(ObjId, Rule),
    /// An IPv4 address of a port of a switch.
    Has(Ip4),
    /// A port of a switch that has more IPv4 addresses than are told one by one.
    HasMany,
}
