//! The rows of ARP replies and of the lookup of destinations, of switches and of their ports.
#![tactic(auto)]

mod arp;
mod port_l2;
mod switch_l2;

pub use port_l2::PortL2;
pub use switch_l2::SwitchL2;
