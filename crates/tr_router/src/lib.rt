//! The pipelines of routers: they do with a packet what the router does.
#![tactic(auto)]

mod laws;

pub use laws::{
    pipelines_of_routers_do_their_parts, rows_of_routers_are_runnable, time_to_live_is_left,
};
