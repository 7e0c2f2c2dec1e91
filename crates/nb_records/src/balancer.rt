//! Load balancers.
use nv_base::{Ip4, Items, Name, ObjId};

/// What a load balancer takes (ovn-nb(5), 'Load_Balancer TABLE', protocol).
#[derive(Clone, Copy, PartialEq, Eq)]
pub enum Proto {
    /// `tcp`
    Tcp,
    /// `udp`
    Udp,
}

/// The address of a VIP, and its port where it has one.
#[derive(Clone, Copy, PartialEq, Eq, PartialOrd, Ord)]
pub struct Frontend {
    pub addr: Ip4,
    pub port: Option<u16>,
}

/// An address to which connections are balanced, and its port where the VIP has one.
#[derive(Clone, Copy, PartialEq, Eq)]
pub struct Backend {
    pub addr: Ip4,
    pub port: Option<u16>,
}

/// A virtual address, and the backends that it stands for (ovn-nb(5), 'Load_Balancer TABLE', vips).
#[derive(Drop, PartialEq, Eq)]
pub struct Vip {
    pub at: Frontend,
    /// One or more, each with a port exactly where the VIP has one.
    pub backends: Items<Backend>,
}

/// A load balancer (ovn-nb(5), 'Load_Balancer TABLE').
#[derive(Drop, PartialEq, Eq)]
pub struct Lb {
    pub id: ObjId,
    pub name: Name,
    pub proto: Proto,
    /// One or more, no two at one address and port.
    pub vips: Items<Vip>,
}
