//! What changed of the units of static bindings of routers' ports, where a line touched the network.
#![tactic(auto)]

mod bindings;

pub use bindings::binding_delta;
