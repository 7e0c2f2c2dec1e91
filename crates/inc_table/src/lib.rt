//! Nodes of an incremental build: what makes the output of a unit from its input, and tables of outputs that are kept.
#![tactic(auto)]

mod ahead;
mod delta;
mod laws;
mod maker;
mod nested;
mod node;
mod owned;
mod remake;

pub use delta::{Change, Delta};
pub use laws::{
    differences_are_deltas_of_the_table, lists_of_the_same_values_are_one, tables_follow_any_deltas,
};
pub use maker::Maker;
pub use nested::Nested;
pub use node::{MapNode, NodeState, Report};
pub use owned::Owned;
