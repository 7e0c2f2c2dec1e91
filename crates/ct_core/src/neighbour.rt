use nv_base::{Ip4, Mac, ObjId};

/// What a router's port has learnt of a neighbour (ovn-sb(5), `MAC_Binding`).
#[derive(Clone, Copy, PartialEq, Eq)]
pub struct Neighbour {
    /// The router's port.
    pub port: ObjId,
    /// The neighbour's address.
    pub addr: Ip4,
    /// The MAC that it has.
    pub mac: Mac,
}
