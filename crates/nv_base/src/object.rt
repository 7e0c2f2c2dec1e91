/// The number of an object of the network, from 1. 0 is none.
#[derive(Clone, Copy, PartialEq, Eq, PartialOrd, Ord)]
pub struct ObjId(pub u32);

/// The numbers of objects are below this one (not from OVN).
pub const NUMBER_LIMIT: u32 = 4_294_967_294;

/// The number, in `outport`, of the multicast group of all ports of a switch (not from OVN).
pub const FLOOD_NUMBER: u32 = 4_294_967_295;

/// The number, in `outport`, of the multicast group of its ports for unknown addresses (not from OVN).
pub const UNKNOWN_NUMBER: u32 = 4_294_967_294;
