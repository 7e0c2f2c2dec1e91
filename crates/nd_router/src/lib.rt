//! The rows of the units of a network's routers, read off the tables, router by router.
#![tactic(auto)]

mod balancers;
mod externals;
mod laws;
mod nats;
mod neighbours;
mod ports;
mod router;
mod routes;
mod unit;

pub use laws::rows_of_routers_are_those_on_each;
pub use router::rows_of_router;
