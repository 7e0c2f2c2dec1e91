//! What changed of the units of the lookup of switches and of their ports, where a line touched the network.
#![tactic(auto)]

mod switch_l2;
mod unknowns;

pub use switch_l2::switch_l2_delta;
pub use unknowns::unknown_delta;
