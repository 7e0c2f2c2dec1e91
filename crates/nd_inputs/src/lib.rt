//! The inputs of units, read off the tables.
#![tactic(auto)]

mod acls;
mod hosts;
mod nats;
mod ports;
mod router_ports;
mod routes;

pub use acls::acl_on_input;
pub use hosts::neighbour_input;
pub use nats::{nat_rule_input, router_nat_input};
pub use ports::{is_for_unknown, is_to_router, port_acl_input, port_l2_input, port_sec_input};
pub use router_ports::{binding_input, port_route_input};
pub use routes::static_route_input;
