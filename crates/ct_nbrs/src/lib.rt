//! What routers' ports have learnt of their neighbours: a MAC is found by the port and the address.
#![tactic(auto)]

mod nbrs;
mod pair;

pub use nbrs::Neighbours;
