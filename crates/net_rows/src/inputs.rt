//! The inputs of units: all that their rows depend on beside their keys.
use expr_core::Typed;
use nb_records::{Addr, Backend, Frontend, Guard, PortKind, Proto, Verdict, Way};
use nv_base::{Items, Mac, Name, ObjId};

/// The port security of a switch port. The key is the port.
#[derive(Drop, PartialEq, Eq)]
pub struct PortSecInput {
    /// The number of its switch.
    pub dp: ObjId,
    pub name: Name,
    pub enabled: bool,
    pub security: Items<Guard>,
}

/// The stages of ACLs of a switch. The key is the switch.
#[derive(Clone, Copy, PartialEq, Eq)]
pub struct SwitchAclInput {
    /// Whether the switch tracks connections.
    pub tracks: bool,
    /// Whether a load balancer is attached to it.
    pub balances: bool,
}

/// The stages of ACLs of a switch port that leads to a router, where its switch tracks connections. The key is the port.
#[derive(Drop, PartialEq, Eq)]
pub struct PortAclInput {
    /// The number of its switch.
    pub dp: ObjId,
    pub name: Name,
}

/// An ACL on a switch to which it applies. The key is both.
#[derive(Drop, PartialEq, Eq)]
pub struct AclOnInput {
    pub way: Way,
    pub priority: u16,
    pub matching: Typed,
    pub verdict: Verdict,
    /// Whether the switch tracks connections.
    pub tracks: bool,
}

/// The lookup of a switch. The key is the switch.
#[derive(Clone, Copy, PartialEq, Eq)]
pub struct SwitchL2Input {
    /// Whether an enabled port of it has the address `unknown`.
    pub unknown: bool,
}

/// The lookup of a switch port. The key is the port.
#[derive(Drop, PartialEq, Eq)]
pub struct PortL2Input {
    /// The number of its switch.
    pub dp: ObjId,
    pub name: Name,
    pub enabled: bool,
    pub kind: PortKind,
    pub addresses: Items<Addr>,
    /// The MAC of the router port that is its peer.
    pub peer_mac: Option<Mac>,
}

/// A VIP of a load balancer, at a switch or at a router. The key is the load balancer, the VIP, and the switch or the router.
#[derive(Drop, PartialEq, Eq)]
pub struct VipInput {
    /// The VIP, as in the key.
    pub at: Frontend,
    pub proto: Proto,
    pub backends: Items<Backend>,
}
