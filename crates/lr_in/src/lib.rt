//! The rows of admission, of learning neighbours and of input to a router: those of routers, and those of their ports.
#![tactic(auto)]

mod addresses;
mod answers;
mod free;
mod port_in;
mod router_in;

pub use port_in::PortIn;
pub use router_in::RouterIn;
