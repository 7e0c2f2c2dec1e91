//! The network that the commands of ovn-nbctl(8) edit, as definitions: its records, what an edit does to them, why it is refused,
//! and what makes a network sound.
#![tactic(auto)]

mod laws;
mod limits;
mod numbers;
mod records;

pub use laws::{edits_leave_sound_networks, the_empty_network_is_sound};
pub use limits::edits_raise_few_kinds;
pub use numbers::{
    edits_draw_one_number, edits_keep_limits, edits_keep_numbers, edits_keep_references,
};
pub use records::{edits_keep_names, edits_keep_records_apart, edits_keep_records_readable};
