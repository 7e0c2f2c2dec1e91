ghost use Rattle.std.specs.Prelude.{◌≡◌, [], ◌∷◌, ◌++◌, OnOk, OnErr, ◌↔◌, IsTrue};

use nv_base::{Kept, OutOfMemory};
use std::alloc::Global;
use std::marker::Model;

/// What happens at a key.
#[derive(Drop)]
pub enum Change<V> {
    /// This value is put there, whether one was there or not.
    Put(V),
    /// The value that was there goes.
    Gone,
}

/// Changes at keys that rise. A clause sees it as the list of keys and changes.
#[derive(Drop)]
pub struct Delta<K: Ord, V> {
    changes: Vec<(K, Change<V>)>,
}

impl<K: Ord, V> Model for Delta<K, V> {
    ghost use Rattle.std.specs.Prelude.{List};
    ghost use Rattle.nv_map.specs.Map.{KeysRise};
    ghost use Rattle.inc_table.specs.declared.delta.Change.{Change};

    ghost Value = { List (K × Change V) };

    ghost view = { λ delta. delta.changes.items };

    ghost invariant = { λ delta. KeysRise K.cmp delta.changes.items };
}

impl<K: Ord, V> Delta<K, V> {
    ghost use Rattle.nv_map.specs.Map.{KeysRise};
    ghost use Rattle.inc_table.specs.Delta.{IsAbove};

    /// The empty delta. It takes no memory.
    pub fn new(alloc: Global) -> Self
        ensures { result ≡ [] }
    {
        Delta {
            changes: Vec::new(alloc),
        }
    }

    /// Whether the key is above the last one, and so above all: a change of it may be pushed.
    pub fn is_below(&self, key: &K) -> bool
        ensures { IsTrue result ↔ IsAbove K.cmp key.now self.now }
    {
        match self.changes.last() {
            None => true,
            Some(last) => last.0.cmp(key).is_lt(),
        }
    }

    /// Puts a change last. Its key is above the last one, and so above all. After `OutOfMemory` the delta is as before.
    pub fn push(&mut self, key: K, change: Change<V>) -> Result<(), OutOfMemory>
    where
        K: Drop,
        V: Drop,
        requires { IsAbove K.cmp key self.old }
        ensures ok { OnOk result (self.new ≡ self.old ++ (key, change) ∷ []) }
        ensures err { OnErr result (self.new ≡ self.old) }
    {
        self.changes.push((key, change))?;
        Ok(())
    }

    /// The keys with their changes, in order.
    pub fn as_slice(&self) -> &[(K, Change<V>)]
        ensures changes { result.now ≡ self.now }
        ensures rise { KeysRise K.cmp self.now }
    {
        self.changes.as_slice()
    }

    /// The keys with their changes, in order, as a `Vec`.
    pub fn into_items(self) -> Vec<(K, Change<V>)>
        ensures changes { result.items ≡ self }
        ensures rise { KeysRise K.cmp self }
    {
        self.changes
    }
}
