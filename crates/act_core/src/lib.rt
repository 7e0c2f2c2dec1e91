//! The action language: lists of actions, their text, and which of them are well-formed.
#![tactic(auto)]

mod action;
mod kept;
mod step;
mod text;
mod well_formed;

pub use action::Action;
pub use step::{Step, Target};
pub use text::put_actions;
pub use well_formed::{are_bits_of, fits, is_well_formed};
