//! The digest of a match, by which equal ones are looked for.
#![tactic(auto)]

mod feed;

pub use feed::digest_of;
