//! Nodes of an incremental build that keep the first member of each group: the least key of an entry that is in it.
#![tactic(auto)]

mod firsts;
mod laws;
mod node;

pub use laws::{firsts_follow_any_deltas, inputs_have_one_table_of_firsts};
pub use node::FirstNode;
