//! The laws of keys that rise, which each delta and each list of entries keeps: for proofs that have no other use of one.
ghost use Rattle.nv_map.specs.Map.{KeysRise};

use inc_table::{Delta, Owned};
use nv_base::Kept;

/// The keys of a delta rise.
pub fn keys_of_deltas_rise<K: Ord, V>(delta: &Delta<K, V>)
    ensures { KeysRise K.cmp delta.now }
{
    delta.as_slice();
}

/// The keys of entries rise.
pub fn keys_of_entries_rise<K: Ord + Kept + Drop, V: Drop>(entries: &Owned<K, V>)
    ensures { KeysRise K.cmp entries.now }
{
    entries.iter();
}
