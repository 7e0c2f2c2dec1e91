//! The check of a match: its names are fields and predicates, and its constants fit them.
#![tactic(auto)]

mod checker;
mod fault;
mod laws;
mod rules;

pub use checker::check;
pub use expr_core::Role;
pub use fault::TypeFault;
pub use laws::{
    a_checked_match_is_well_typed, a_printed_match_is_checked_as_itself,
    a_well_typed_match_is_checked, printed_matches_tell_matches_apart,
};
