//! The rows of routing, of the resolution of the next host and of delivery: those of routers, of their ports, of static routes, of
//! static bindings, and of neighbours.
#![tactic(auto)]

mod leaving;
mod port_route;
mod resolving;
mod router_route;
mod static_route;

pub use port_route::PortRoute;
pub use resolving::{Binding, Neighbour};
pub use router_route::RouterRoute;
pub use static_route::StaticRoute;
