//! Connection tracking and learned neighbours, as definitions on lists: what a packet's look-up finds, what changes the list of
//! connections, what a connection makes of a packet's addresses, and which MACs are known.
#![tactic(auto)]

mod entry;
mod fits;
mod kept;
mod laws;
mod look;
mod neighbour;
mod packet;
mod zone;

pub use entry::Entry;
pub use laws::{
    changes_keep_connections, entries_found_are_there, entries_not_found_are_not_there,
    learning_keeps_neighbours, what_is_learnt_is_known,
};
pub use look::{Look, Side};
pub use neighbour::Neighbour;
pub use packet::{sought, unfound};
pub use zone::Zone;
