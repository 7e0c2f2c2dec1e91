//! What changed of the units that depend on one record alone, where a line touched the network.
#![tactic(auto)]

mod nat_rule;
mod port_route;
mod port_sec;
mod routers;
mod switches;

pub use nat_rule::nat_rule_delta;
pub use port_route::port_route_delta;
pub use port_sec::port_sec_delta;
pub use routers::router_delta;
pub use switches::switch_delta;
