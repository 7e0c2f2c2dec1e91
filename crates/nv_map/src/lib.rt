//! An ordered map whose entries bring their own room, so that no change of it takes memory.
#![tactic(auto)]

mod balance;
mod change;
mod entry;
mod laws;
mod map;
mod node;
mod probe;
mod search;

pub use entry::Entry;
pub use laws::{
    changes_keep_the_other_entries, entries_are_values_at_keys,
    exchanged_values_are_exchanged_back, put_entries_are_taken_back, taken_entries_are_put_back,
    the_entry_after_a_key_is_the_least_above,
};
pub use map::Map;
pub use probe::Probe;
