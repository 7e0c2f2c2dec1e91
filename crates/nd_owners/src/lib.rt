//! Records that belong to an owner, kept by their numbers, and which is the first of each owner.
#![tactic(auto)]

mod owners;

pub use owners::ByOwner;
