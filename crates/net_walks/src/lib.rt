//! That walks over parts which do the same are alike, whatever the parts are.
#![tactic(auto)]

mod laws;

pub use laws::{States, walks_over_like_parts_are_alike};
