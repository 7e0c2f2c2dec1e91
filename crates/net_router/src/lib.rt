//! What a network with routers does with a packet, said of its objects alone.
#![tactic(auto)]

mod laws;

pub use laws::networks_without_routers_do_what_their_switches_do;
