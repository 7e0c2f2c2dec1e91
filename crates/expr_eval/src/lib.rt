//! What a match means: whether it holds of a packet.
#![tactic(auto)]

mod laws;
mod meaning;
mod relation;

pub use laws::{
    a_match_excludes_its_negation, predicates_are_prerequisites, prerequisites_are_tests,
};
pub use meaning::holds;
