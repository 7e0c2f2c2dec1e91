//! What drives nodes of any kind: a node that is stale is brought to its inputs again.
#![tactic(auto)]

mod first;
mod group;
mod join;
mod map;
mod settles;

pub use settles::{Settles, settle};
