//! The generated network, to measure on and to try things on: the lines that make it, one at a time.
#![tactic(auto)]

mod line;
mod summary;

pub use line::Line;
pub use summary::{put_summary, switch_count};
