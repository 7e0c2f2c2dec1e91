//! What an edit changes in the tables of the network, step by step, so that each step is undone without memory.
#![tactic(auto)]

mod acl_edits;
mod acls;
mod balancer_removals;
mod balancers;
mod edits;
mod groups;
mod large_groups;
mod one_each;
mod owned;
mod ports;
mod router_removals;
mod routers;
mod routes;
mod sets;
mod switch_removals;
mod switches;

pub use edits::edit;
