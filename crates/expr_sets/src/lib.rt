//! The members of address sets, and the ports of port groups, one by one.
#![tactic(auto)]

mod members;

pub use members::{Masked, SetMembers};
