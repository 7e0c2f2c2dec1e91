//! Nodes of an incremental build that group: each group that an entry is in has that entry as a member.
#![tactic(auto)]

mod grouping;
mod groups;
mod laws;
mod members;
mod merge;
mod node;

pub use groups::Groups;
pub use laws::{groups_follow_any_deltas, inputs_have_one_table_of_groups};
pub use members::Members;
pub use node::GroupNode;
