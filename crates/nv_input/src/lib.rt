//! The lines of an input: they are cut, each is answered before the next is read for, and the end of the input has a status.
#![tactic(auto)]

mod answer;
mod converse;
mod cut;
mod opening;
mod server;
mod status;

pub use answer::answer_input;
pub use opening::Opening;
pub use status::Status;
