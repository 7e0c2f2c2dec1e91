//! Address sets and port groups.
use crate::Numbers;
use nv_base::{Items, Mac, Name, ObjId, Prefix};

/// A member of an address set.
#[derive(Clone, Copy, PartialEq, Eq)]
pub enum Member {
    /// A MAC.
    Mac(Mac),
    /// The addresses of a network, or one address, where the length is 32.
    Net(Prefix),
}

/// An address set (ovn-nb(5), 'Address_Set TABLE').
#[derive(Drop, PartialEq, Eq)]
pub struct AddrSet {
    pub id: ObjId,
    pub name: Name,
    pub members: Items<Member>,
}

/// A group of switch ports (ovn-nb(5), 'Port_Group TABLE').
#[derive(Drop, PartialEq, Eq)]
pub struct Group {
    pub id: ObjId,
    pub name: Name,
    /// The numbers of its ports, none of them twice.
    pub ports: Numbers,
}
