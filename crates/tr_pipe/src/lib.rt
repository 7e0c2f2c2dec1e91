//! The stage machine: what the rows of one pipeline do with a packet, the connections that it is tracked in and that change its addresses,
//! and the neighbours that are known.
#![tactic(auto)]

mod act;
mod learn;
mod machine;
mod moving;
mod nat;
mod track;
mod watch;

pub use machine::run_pipeline;
pub use watch::{Unwatched, Watch};
