//! Nodes of an incremental build that join: each entry on the left has the entry on the right that it names.
#![tactic(auto)]

mod joining;
mod laws;
mod link;
mod node;

pub use laws::joins_follow_any_deltas;
pub use link::Link;
pub use node::JoinNode;
