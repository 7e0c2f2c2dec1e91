//! The stage laws of routers: what each stage does with a packet, on the rows of each sound network.
#![tactic(auto)]

mod at_ports;
mod input;
mod neighbours;
mod routing;

pub use at_ports::{lr_in_admission, lr_out_delivery};
pub use input::lr_in_ip_input;
pub use neighbours::{lr_in_arp_request, lr_in_arp_resolve, lr_in_learn_neighbor};
pub use routing::lr_in_ip_routing;
