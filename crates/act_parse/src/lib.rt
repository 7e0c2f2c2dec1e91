//! The reader of the action language: a text is read from left to right, as actions whose blocks have steps.
#![tactic(auto)]

mod action;
mod assignment;
mod constant;
mod ending;
mod fault;
mod keyword;
mod lexer;
mod number;
mod reader;
mod step;
mod stop;
mod targets;
mod value;
mod wanted;

pub use fault::ActionFault;
pub use reader::parse_actions;
