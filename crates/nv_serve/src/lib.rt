//! The program's one call: its arguments are read, a script of lines is answered, and the status says how the run ended.
#![tactic(auto)]

mod laws;
mod open;
mod serve;

pub use laws::{output_goes_on, traces_are_meant};
pub use nv_input::Status;
pub use serve::run;
