ghost use Rattle.std.specs.Prelude.{◌≡◌, ◌<◌, ◌^◌, [], ◌∷◌, ◌++◌, length, None, Some, OnOk, OnErr, IfOk, IsTrue, ◌↔◌};
ghost use Rattle.std.specs.Option.{option_copied, option_map};

use crate::{Change, Delta};
use nv_base::{Kept, OutOfMemory};
use std::alloc::Global;
use std::collections::BTreeMap;
use std::collections::btree_map::Iter;
use std::marker::Model;
use std::ops::Bound;

/// Entries by rising key, owned. A clause sees the list of keys and values.
#[derive(Drop)]
pub struct Owned<K: Ord, V> {
    alloc: Global,
    entries: BTreeMap<K, V>,
}

impl<K: Ord, V> Model for Owned<K, V> {
    ghost use Rattle.std.specs.Prelude.{List};
    ghost use Rattle.nv_map.specs.Map.{KeysRise};

    ghost Value = { List (K × V) };

    ghost view = { λ owned. owned.entries.entries };

    ghost invariant = { λ owned. KeysRise K.cmp owned.entries.entries };
}

impl<K: Ord + Kept + Drop, V: Drop> Owned<K, V> {
    ghost use Rattle.nv_map.specs.Map.{KeysRise, value_at, entry_after};
    ghost use Rattle.inc_table.specs.declared.delta.Change.TheVariants.{Put, Gone};
    ghost use Rattle.inc_table.specs.Delta.{IsAbove, IsApplied};

    /// No entries. It takes no memory.
    pub fn new(alloc: Global) -> Self
        ensures { result ≡ [] }
    {
        Owned {
            alloc,
            entries: BTreeMap::new(alloc),
        }
    }

    /// These entries. Their keys rise, so that the tree is built at once, and the place of no key is looked up.
    pub(crate) fn from_rising(alloc: Global, entries: Vec<(K, V)>) -> Result<Self, OutOfMemory>
        requires { KeysRise K.cmp entries.items }
        ensures { IfOk result (λ owned. owned ≡ entries.items) }
    {
        Ok(Owned {
            alloc,
            entries: entries.into_iter().collect(alloc)?,
        })
    }

    /// How many entries there are.
    pub fn len(&self) -> usize
        ensures { result ≡ length self.now }
    {
        self.entries.len()
    }

    /// Whether there is no entry.
    pub fn is_empty(&self) -> bool
        ensures { IsTrue result ↔ (self.now ≡ []) }
    {
        self.entries.is_empty()
    }

    /// The value at a key.
    pub fn get(&self, key: &K) -> Option<&V>
        ensures value { option_copied result ≡ value_at K.cmp key.now self.now }
        ensures rise { KeysRise K.cmp self.now }
    {
        self.entries.get(key)
    }

    /// The entry of the least key above the one given, or the first one where none is given.
    pub fn first_after(&self, key: Option<&K>) -> Option<(&K, &V)>
        ensures entry { option_map (λ e. (e.0.now, e.1.now)) result ≡ entry_after K.cmp (option_copied key.entry) self.now }
        ensures rise { KeysRise K.cmp self.now }
    {
        match key {
            None => self.entries.iter().next(),
            Some(key) => self
                .entries
                .range((Bound::Excluded(key), Bound::Unbounded))
                .next(),
        }
    }

    /// The entries, by rising key.
    pub fn iter(&self) -> Iter<'_, K, V>
        ensures entries { result ≡ self.now }
        ensures rise { KeysRise K.cmp self.now }
        ensures fits { length self.now < 2 ^ 63 }
    {
        self.entries.iter()
    }

    /// Puts an entry last. Its key is above the last one, and so above all. After `OutOfMemory` the entries are as before.
    pub fn put(&mut self, key: K, value: V) -> Result<(), OutOfMemory>
        requires { IsAbove K.cmp key self.old }
        ensures ok { OnOk result (self.new ≡ self.old ++ (key, value) ∷ []) }
        ensures err { OnErr result (self.new ≡ self.old) }
    {
        self.entries.insert(key, value)?;
        Ok(())
    }

    /// Puts a value at a key, whether one is there or not. After `OutOfMemory` the entries are as before.
    pub fn set(&mut self, key: &K, value: V) -> Result<(), OutOfMemory>
        ensures ok { OnOk result (IsApplied K.cmp ((key.now, Put value) ∷ []) self.old self.new) }
        ensures err { OnErr result (self.new ≡ self.old) }
        ensures rise { KeysRise K.cmp self.new }
    {
        self.entries.insert(key.copy(self.alloc)?, value)?;
        Ok(())
    }

    /// Takes the value of a key out. Where there is none, nothing changes.
    pub fn remove(&mut self, key: &K) -> Option<V>
        ensures value { result ≡ value_at K.cmp key.now self.old }
        ensures applied { IsApplied K.cmp ((key.now, Gone) ∷ []) self.old self.new }
        ensures rise { KeysRise K.cmp self.new }
    {
        self.entries.remove(key)
    }

    /// Applies a change of a key. Where none is there that goes, nothing changes. After `OutOfMemory` the entries are as before.
    pub fn apply(&mut self, key: &K, change: Change<V>) -> Result<(), OutOfMemory>
        ensures ok { OnOk result (IsApplied K.cmp ((key.now, change) ∷ []) self.old self.new) }
        ensures err { OnErr result (self.new ≡ self.old) }
        ensures rise { KeysRise K.cmp self.new }
    {
        match change {
            Change::Put(value) => self.set(key, value),
            Change::Gone => {
                self.remove(key);
                Ok(())
            }
        }
    }
}

impl<K: Ord + Kept + Drop, V: Kept + Drop> Owned<K, V> {
    ghost use Rattle.std.specs.Prelude.{List};
    ghost use Rattle.std.specs.declared.cmp.Ordering.TheVariants.{Less};
    ghost use Rattle.nv_map.specs.Map.{KeysRise, value_at};
    ghost use Rattle.inc_table.specs.declared.delta.Change.TheVariants.{Put, Gone};
    ghost use Rattle.inc_table.specs.Delta.{IsAbove, IsApplied, IsDifference, alters, alters_each, change_between, change_to, puts_of, told_at};
    ghost use Rattle.inc_table.specs.inner.Walk.{is_there};

    /// The same entries.
    pub fn copy(&self, alloc: Global) -> Result<Self, OutOfMemory>
        ensures { IfOk result (λ copied. copied ≡ self.now) }
    {
        let mut copied = Vec::with_capacity(alloc, self.len())?;
        for (key, value) in self.iter() {
            copied.push((key.copy(alloc)?, value.copy(alloc)?))?;
        }
        Owned::from_rising(alloc, copied)
    }

    /// The delta that puts all of these: it leads from no entries to these.
    pub fn puts(&self, alloc: Global) -> Result<Delta<K, V>, OutOfMemory>
        ensures puts { IfOk result (λ delta. delta ≡ puts_of self.now) }
        ensures rise { KeysRise K.cmp self.now }
    {
        let mut delta = Delta::new(alloc);
        for (key, value) in self.iter() {
            let change = Change::Put(value.copy(alloc)?);
            delta.push(key.copy(alloc)?, change)?;
        }
        Ok(delta)
    }

    /// The delta of these entries as they are: empty. It takes no memory.
    pub fn unchanged(&self) -> Delta<K, V>
        ensures none { result ≡ [] }
        ensures difference { IsDifference K.cmp V.eq self.now self.now result }
        ensures rise { KeysRise K.cmp self.now }
    {
        Delta::new(self.alloc)
    }

    /// Whether each change of a delta changes something: a value that is put is not there yet, and a key that goes is there.
    pub fn alters_each(&self, delta: &Delta<K, V>) -> bool
        ensures { result ≡ alters_each K.cmp V.eq delta.now self.now }
    {
        delta
            .as_slice()
            .iter()
            .all(|entry| self.alters(&entry.0, &entry.1))
    }

    // Whether a change at a key changes something.
    fn alters(&self, key: &K, change: &Change<V>) -> bool
        ensures { result ≡ alters V.eq change.now (value_at K.cmp key.now self.now) }
    {
        match (change, self.get(key)) {
            (Change::Put(_), None) => true,
            (Change::Put(value), Some(old)) => old != value,
            (Change::Gone, None) => false,
            (Change::Gone, Some(_)) => true,
        }
    }

    /// Puts a value at a key, and tells it where another one was there, or none. At `OutOfMemory` no more is known of the entries
    /// and of what was told.
    pub fn replace(&mut self, key: &K, value: V, told: &mut Delta<K, V>) -> Result<(), OutOfMemory>
        requires { IsAbove K.cmp key.now told.old }
        ensures applied { OnOk result (IsApplied K.cmp ((key.now, Put value) ∷ []) self.old self.new) }
        ensures told { OnOk result (told.new ≡ told.old ++ told_at key.now (change_between V.eq (value_at K.cmp key.now self.old) (Some value))) }
        ensures rise { KeysRise K.cmp self.new }
    {
        if self.has(key, &value) {
            return Ok(());
        }
        let change = Change::Put(value.copy(self.alloc)?);
        told.push(key.copy(self.alloc)?, change)?;
        self.set(key, value)
    }

    // Whether this value is at the key.
    fn has(&self, key: &K, value: &V) -> bool
        ensures has { result ≡ is_there V.eq (value_at K.cmp key.now self.now) value.now }
        ensures rise { KeysRise K.cmp self.now }
    {
        match self.get(key) {
            None => false,
            Some(old) => old == value,
        }
    }

    /// Takes the value of a key out, and tells it where one was there. At `OutOfMemory` no more is known of the entries and of what
    /// was told.
    pub fn strike(&mut self, key: &K, told: &mut Delta<K, V>) -> Result<(), OutOfMemory>
        requires { IsAbove K.cmp key.now told.old }
        ensures applied { OnOk result (IsApplied K.cmp ((key.now, Gone) ∷ []) self.old self.new) }
        ensures told { OnOk result (told.new ≡ told.old ++ told_at key.now (change_between V.eq (value_at K.cmp key.now self.old) None)) }
        ensures rise { KeysRise K.cmp self.new }
    {
        if self.remove(key).is_some() {
            told.push(key.copy(self.alloc)?, Change::Gone)?;
        }
        Ok(())
    }
    /// Puts a value at a key, or takes the one that is there out, and tells it where that changes anything. What told all that changed
    /// before tells all that changed after. At `OutOfMemory` no more is known of the entries and of what was told.
    pub fn change_at(
        &mut self,
        key: &K,
        value: Option<V>,
        told: &mut Delta<K, V>,
    ) -> Result<(), OutOfMemory>
        requires { IsAbove K.cmp key.now told.old }
        ensures applied { OnOk result (IsApplied K.cmp ((key.now, change_to value) ∷ []) self.old self.new) }
        ensures told { OnOk result (told.new ≡ told.old ++ told_at key.now (change_between V.eq (value_at K.cmp key.now self.old) value)) }
        ensures rise { KeysRise K.cmp self.new }
        ensures difference { OnOk result ((first : List (K × V)) → IsDifference K.cmp V.eq first self.old told.old → IsDifference K.cmp V.eq first self.new told.new) }
        ensures above { OnOk result ((next : K) → K.cmp key.now next ≡ Less → IsAbove K.cmp next told.new) }
    {
        match value {
            None => self.strike(key, told),
            Some(value) => self.replace(key, value, told),
        }
    }
}
