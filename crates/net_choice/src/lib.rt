//! Which of its objects the network chooses for a packet, found in its tables.
#![tactic(auto)]

mod acls;
mod exits;
mod routes;

pub use acls::acl_first;
pub use routes::{Hop, route_of};
