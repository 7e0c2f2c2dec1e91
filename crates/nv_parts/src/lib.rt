//! Which part of a word is wrong that is refused for its MACs or its addresses, and why. It reads the word again, part by part, as the
//! readers of the program do; what it tells is tested, and not proved.
#![tactic(auto)]

mod address;
mod backend;
mod host;
mod part;
mod reason;

pub use address::{bad_address, bad_mac, foreign_part};
pub use part::Part;
pub use reason::{Reason, address_reasons, mac_reasons};
