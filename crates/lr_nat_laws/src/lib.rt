//! The stage laws of the stages in which a router translates addresses, on the rows of each sound network.
#![tactic(auto)]

mod arriving;
mod leaving;

pub use arriving::{lr_in_defrag, lr_in_dnat, lr_in_unsnat};
pub use leaving::{lr_out_snat, lr_out_undnat};
