//! The walk of a packet through the network by its rows, with copies, answers and hops, and that it is what the network means.
#![tactic(auto)]

mod event;
mod laws;
mod parcel;
mod places;
mod ports;
mod run;
mod walk;

pub use event::Event;
pub use laws::{
    each_stage_takes_each_packet, hits_are_left_out, networks_are_refined,
    pipelines_do_their_parts, rows_find_what_they_read, rows_of_networks_are_runnable,
};
pub use parcel::Parcel;
pub use walk::trace;
