ghost use Rattle.std.specs.Prelude.{◌≡◌};

use nv_base::Kept;
use std::marker::Model;

/// Keys at which something may have changed, in order, each once. A clause sees the list.
#[derive(Drop)]
pub struct Keys<K: Ord> {
    keys: Vec<K>,
}

impl<K: Ord> Model for Keys<K> {
    ghost use Rattle.std.specs.Prelude.{List};
    ghost use Rattle.std.specs.List.Sorted.{IsStrictlySortedBy};

    ghost Value = { List K };

    ghost view = { λ keys. keys.keys.items };

    ghost invariant = { λ keys. IsStrictlySortedBy K.cmp keys.keys.items };
}

impl<K: Ord + Kept + Drop> Keys<K> {
    ghost use Rattle.std.specs.List.Sorted.{IsStrictlySortedBy};
    ghost use Rattle.inc_feed.specs.Feed.{has_key};

    /// These keys, which may come in any order, and any of them several times. It takes no memory.
    pub fn new(keys: Vec<K>) -> Self
        ensures same { (key : K) → has_key K.cmp key result ≡ has_key K.cmp key keys.items }
        ensures rise { IsStrictlySortedBy K.cmp result }
    {
        let mut keys = keys;
        keys.sort_unstable();
        keys.dedup();
        Keys { keys }
    }

    /// The keys, in order.
    pub fn as_slice(&self) -> &[K]
        ensures keys { result.now ≡ self.now }
        ensures rise { IsStrictlySortedBy K.cmp self.now }
    {
        self.keys.as_slice()
    }
}
