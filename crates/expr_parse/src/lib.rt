//! The reader of the match language of ovn-sb(5), in this profile.
#![tactic(auto)]

mod atom;
mod class;
mod constants;
mod fault;
mod formula;
mod laws;
mod lexer;
mod names;
mod operator;
mod part;
mod quoted;
mod reader;
mod right;
mod signs;
mod tail;
mod token;

pub use fault::MatchFault;
pub use laws::{
    a_match_is_read, faults_stay, faulty_tokens_are_no_match, what_is_read_is_a_match,
    what_is_read_is_well_formed, written_matches_are_read, written_matches_have_their_tokens,
};
pub use reader::parse_match;
