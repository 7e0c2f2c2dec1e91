//! What changed of the units in which routers translate addresses, where a line touched the network.
#![tactic(auto)]

mod dnats;
mod router_nat;

pub use dnats::dnat_delta;
pub use router_nat::router_nat_delta;
