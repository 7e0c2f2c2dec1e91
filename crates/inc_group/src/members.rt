ghost use Rattle.std.specs.Prelude.{◌≡◌, [], ◌∷◌, ◌++◌, OnOk, OnErr, IsTrue, ◌↔◌};

use nv_base::{Items, Kept, OutOfMemory};
use std::alloc::Global;
use std::marker::Model;

/// The members of a group, by rising key. A clause sees the list of keys and values.
#[derive(Drop)]
pub struct Members<K: Ord, V> {
    entries: Items<(K, V)>,
}

impl<K: Ord, V> Model for Members<K, V> {
    ghost use Rattle.std.specs.Prelude.{List};
    ghost use Rattle.nv_map.specs.Map.{KeysRise};

    ghost Value = { List (K × V) };

    ghost view = { λ members. members.entries };

    ghost invariant = { λ members. KeysRise K.cmp members.entries };
}

impl<K: Ord, V> Members<K, V> {
    ghost use Rattle.nv_map.specs.Map.{KeysRise};
    ghost use Rattle.inc_table.specs.Delta.{IsAbove};

    /// No members. It takes no memory.
    pub(crate) fn new(alloc: Global) -> Self
        ensures { result ≡ [] }
    {
        Members {
            entries: Items::new(alloc),
        }
    }

    /// Puts a member last. Its key is above the last one, and so above all. After `OutOfMemory` the members are as before.
    pub(crate) fn push(&mut self, key: K, value: V) -> Result<(), OutOfMemory>
    where
        K: Drop,
        V: Drop,
        requires { IsAbove K.cmp key self.old }
        ensures ok { OnOk result (self.new ≡ self.old ++ (key, value) ∷ []) }
        ensures err { OnErr result (self.new ≡ self.old) }
    {
        self.entries.push((key, value))?;
        Ok(())
    }

    /// Whether there is no member.
    pub(crate) fn is_empty(&self) -> bool
        ensures { IsTrue result ↔ (self.now ≡ []) }
    {
        self.entries.as_slice().is_empty()
    }

    /// The keys with their values, in order.
    pub fn as_slice(&self) -> &[(K, V)]
        ensures members { result.now ≡ self.now }
        ensures rise { KeysRise K.cmp self.now }
    {
        self.entries.as_slice()
    }
}

impl<K: Ord, V: PartialEq> PartialEq for Members<K, V> {
    ghost use Rattle.std.specs.Cmp.{and_per, on_per};
    ghost use Rattle.std.specs.Cmp.Lexicographic.{lists_per};
    ghost use Rattle.inc_group.specs.Group.{same_members};

    ghost eq = { same_members K.eq V.eq };

    ghost laws = { lists_per (and_per (on_per (λ e. e.0) K.PartialEq.laws) (on_per (λ e. e.1) V.laws)) };

    fn eq(&self, other: &Self) -> bool {
        self.entries == other.entries
    }
}

impl<K: Ord, V: Eq> Eq for Members<K, V> {
    ghost use Rattle.std.specs.Cmp.{and_equiv, on_equiv};
    ghost use Rattle.std.specs.Cmp.Lexicographic.{lists_equiv};

    ghost laws = { lists_equiv (and_equiv (on_equiv (λ e. e.0) K.Eq.laws) (on_equiv (λ e. e.1) V.Eq.laws)) };
}

impl<K: Ord + Kept + Drop, V: Kept + Drop> Kept for Members<K, V> {
    ghost use Rattle.nv_base.specs.inner.Exact as tells;

    ghost exact = { tells.list _ (tells.pair K.eq V.eq K.exact V.exact) };

    fn copy(&self, alloc: Global) -> Result<Self, OutOfMemory> {
        Ok(Members {
            entries: self.entries.copy(alloc)?,
        })
    }
}
