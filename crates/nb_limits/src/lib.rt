//! How much of each kind a network has, and whether it is over a limit.
#![tactic(auto)]

mod acl_limits;
mod amounts;
mod balancer_limits;
mod bounds;
mod ceilings;
mod limits;
mod neighbour_ceilings;
mod neighbour_limits;
mod within;

pub use amounts::amount;
pub use ceilings::Ceilings;
pub use limits::{first_over, may_rise};
