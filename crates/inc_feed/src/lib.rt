//! What feeds the nodes of an incremental build: of keys at which something may have changed, the delta of what did.
#![tactic(auto)]

mod entries;
mod feed;
mod keys;
mod laws;
mod wanted;

pub use entries::Entries;
pub use feed::delta_of;
pub use keys::Keys;
pub use laws::{keys_of_deltas_rise, keys_of_entries_rise};
pub use wanted::Wanted;
