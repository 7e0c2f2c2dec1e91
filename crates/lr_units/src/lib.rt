//! The units of the routers of a network, and their rows, as definitions, and the laws of these rows; the rows of a whole network,
//! and their laws.
#![tactic(auto)]

mod laws;
mod network;

pub use laws::{
    rows_of_routers_are_apart, rows_of_routers_are_on_routers, rows_of_routers_are_typed,
};
pub use network::{
    rows_of_networks_are_those_of_the_units, rows_of_sound_networks_are_apart,
    rows_of_sound_networks_are_typed,
};
