//! The full build: the rows of all units of a network, made anew.
#![tactic(auto)]

mod balancers;
mod build;
mod inputs;
mod made;
mod owners;
mod ports;
mod routers;
mod switches;

pub use build::full;
