//! The list of connections with an index of it: an entry is found by its zone and a tuple, and no walk over the list is made for a
//! packet.
#![tactic(auto)]

mod backend;
mod conns;
mod index;
mod key;

pub use backend::balance;
pub use conns::{Conns, CtFault};
