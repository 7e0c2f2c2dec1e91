//! What a line of edits touched, kind by kind, and what of a network stays where nothing of it was touched.
#![tactic(auto)]

mod keys;
mod picks;
mod touched;

pub use keys::{and_changed, and_owners};
pub use touched::Touched;
