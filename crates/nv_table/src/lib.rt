//! Tables of records, each found by its number and by its tags. A record brings the room that it takes, so that no edit of a
//! table takes memory, and none of its undoing.
#![tactic(auto)]

mod laws;
mod lean;
mod listing;
mod loose;
mod marks;
mod probes;
mod record;
mod swaps;
mod table;

pub use laws::{
    edits_count_the_record, edits_keep_the_other_records, edits_keep_the_records_of_other_numbers,
    exchanged_records_are_exchanged_back, found_records_have_the_number, numbers_rise_after_edits,
    put_records_are_taken_back, records_of_new_numbers_go_last, taken_records_are_put_back,
    the_record_found_is_the_least,
};
pub use lean::Lean;
pub use listing::Listing;
pub use loose::Loose;
pub use record::Record;
pub use table::Table;
