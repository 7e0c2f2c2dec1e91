//! The program's arguments, and its help.
#![tactic(auto)]

mod laws;
mod options;

pub use laws::{
    a_generated_network_is_asked_for, arguments_of_the_manual_are_accepted,
    help_and_version_are_asked_for, hops_are_read,
};
pub use options::{ArgumentFault, Options, accept_arguments, requested_text};
