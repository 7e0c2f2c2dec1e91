//! The constants of matches and of actions: which texts spell one, and the longest that a text begins with.
#![tactic(auto)]

mod constant;

pub use constant::{MAC_LEN, longest, mac_front};
