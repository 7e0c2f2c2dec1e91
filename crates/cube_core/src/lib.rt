//! Matches as lists of cubes.
#![tactic(auto)]

mod bits;
mod comparison;
mod cube;
mod fault;
mod items;
mod join;
mod matches;

pub use cube::Cube;
pub use fault::CubeFault;
pub use matches::cubes;
