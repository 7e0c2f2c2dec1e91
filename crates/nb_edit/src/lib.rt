//! The edits that the commands of ovn-nbctl(8) ask for, and the forms of the commands.
#![tactic(auto)]

mod acls;
mod at;
mod balancers;
mod call;
mod command;
mod edit;
mod form;
mod keywords;
mod maybe;
mod routers;
mod rules;
mod sets;
mod switches;
mod verb;

pub use command::{is_taken, option_count, read_command, read_words};
pub use form::{Flag, Place, Tail};
pub use verb::{Form, Verb, verb_of};
