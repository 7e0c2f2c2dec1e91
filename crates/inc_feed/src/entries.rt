ghost use Rattle.std.specs.Prelude.{◌≡◌, List};
ghost use Rattle.std.specs.Option.{option_copied};
ghost use Rattle.nv_map.specs.Map.{value_at};

use inc_table::Owned;
use nv_base::Kept;

/// Entries that are there, each found by its key.
pub trait Entries<K: Ord, V> {
    /// The entries.
    ghost entries_of: { Self → List (K × V) };

    /// The value at a key.
    fn value(&self, key: &K) -> Option<&V>
        ensures { option_copied result ≡ value_at K.cmp key.now (entries_of self.now) };
}

impl<K: Ord + Kept + Drop, V: Drop> Entries<K, V> for Owned<K, V> {
    ghost entries_of = { λ owned. owned };

    fn value(&self, key: &K) -> Option<&V> {
        self.get(key)
    }
}
