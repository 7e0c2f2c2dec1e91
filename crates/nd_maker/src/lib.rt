//! What makes the rows of units, whatever their kind.
#![tactic(auto)]

mod maker;

pub use maker::UnitMaker;
