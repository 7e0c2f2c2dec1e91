//! Entries that are gone through by rising key, side by side with others.
ghost use Rattle.std.specs.Prelude.{◌≡◌, ◌++◌};
ghost use Rattle.std.specs.Option.{option_copied};
ghost use Rattle.inc_table.specs.inner.Walk.{IsBelow, IsUpTo, entry_list, first_key, least};

use crate::Owned;
use nv_base::Kept;
use std::collections::btree_map::Iter;
use std::marker::Model;

/// Entries by rising key, the next one at hand.
#[derive(Drop)]
pub(crate) struct Ahead<'a, K: Ord, V> {
    entry: Option<(&'a K, &'a V)>,
    rest: Iter<'a, K, V>,
}

impl<'a, K: Ord, V> Model for Ahead<'a, K, V> {
    ghost use Rattle.std.specs.Prelude.{List};
    ghost use Rattle.nv_map.specs.Map.{KeysRise};
    ghost use Rattle.inc_table.specs.inner.Walk.{entries_ahead};

    ghost Value = { List (K × V) };

    ghost view = { λ ahead. entries_ahead ahead.entry ahead.rest };

    ghost invariant = { λ ahead. KeysRise K.cmp (entries_ahead ahead.entry ahead.rest) };
}

impl<'a, K: Ord + Kept + Drop, V: Drop> Ahead<'a, K, V> {
    ghost use Rattle.nv_map.specs.Map.{KeysRise};

    /// All of these entries.
    pub(crate) fn new(entries: &'a Owned<K, V>) -> Self
        ensures entries { result ≡ entries.now }
        ensures rise { KeysRise K.cmp entries.now }
    {
        let mut rest = entries.iter();
        let entry = rest.next();
        Ahead { entry, rest }
    }

    /// The key of the next entry.
    pub(crate) fn key(&self) -> Option<&'a K>
        ensures { option_copied result ≡ first_key self.now }
    {
        match self.entry {
            None => None,
            Some((key, _)) => Some(key),
        }
    }

    /// The value of a key, which is not above the next one. It is gone through where it is there.
    pub(crate) fn take(&mut self, key: &K) -> Option<&'a V>
        requires { IsUpTo K.cmp key.now self.old }
        ensures entries { self.old ≡ entry_list key.now (option_copied result) ++ self.new }
        ensures below { IsBelow K.cmp key.now self.new }
    {
        match self.entry {
            None => None,
            Some((found, value)) => {
                if !key.cmp(found).is_eq() {
                    return None;
                }
                self.entry = self.rest.next();
                Some(value)
            }
        }
    }
}

/// The lesser of two keys, or the one that is there.
pub(crate) fn least<'a, K: Ord>(one: Option<&'a K>, other: Option<&'a K>) -> Option<&'a K>
    ensures { option_copied result ≡ least K.cmp (option_copied one.entry) (option_copied other.entry) }
{
    match (one, other) {
        (None, other) => other,
        (Some(one), None) => Some(one),
        (Some(one), Some(other)) => {
            if one.cmp(other).is_gt() {
                Some(other)
            } else {
                Some(one)
            }
        }
    }
}
