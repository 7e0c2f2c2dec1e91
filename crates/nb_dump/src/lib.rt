//! A network as the script of editing commands that makes it (not from OVN).
#![tactic(auto)]

mod dump;
mod ends;
mod names;
mod next;
mod parts;
mod records;

pub use dump::put_dump;
pub use parts::put_object;
