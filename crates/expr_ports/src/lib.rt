//! The names of ports by their numbers.
#![tactic(auto)]

mod port_names;

pub use port_names::PortNames;
