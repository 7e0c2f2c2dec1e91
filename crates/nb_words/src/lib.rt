//! The words of a line of the script, and the commands that they make.
#![tactic(auto)]

mod command;
mod fault;
mod word;

pub use command::{Command, read_commands};
pub use fault::LineFault;
pub use word::{Word, words_of};
