//! What a line of the script says: edits, or a query; and what the names of commands and queries ask for.
#![tactic(auto)]

mod laws;
mod line;
mod microflow;
mod query;
mod readings;
mod task;

pub use laws::{
    lines_ask_for_readable_edits, lines_have_no_more_edits_than_bytes, queries_have_well_read_words,
};
pub use line::{Line, read_line};
pub use query::Query;
pub use readings::what_commands_ask_for_is_readable;
pub use task::{Question, Task, is_minimal, task_of};
