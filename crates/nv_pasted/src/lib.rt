//! What people paste from the shell and from OVN's documents, and the command here that does it: data, and what finds a line of it.
#![tactic(auto)]

mod names;
mod options;
mod shell;
mod tables;

pub use names::{NamedHint, name_hint, named_hints};
pub use options::{option_hint, option_hints};
pub use shell::{Shell, shell_hints};
pub use tables::{TableHint, table_hint, table_hints};
