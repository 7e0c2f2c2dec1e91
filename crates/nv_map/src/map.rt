ghost use Rattle.std.specs.Prelude.{◌≡◌, [], None, IsSome, ◌↔◌, IsTrue, Some};
ghost use Rattle.std.specs.Option.{option_copied, option_map};

use crate::change::{exchange_in, put_into, take_from};
use crate::node::Tree;
use crate::search::{first, first_above, levels, value_at};
use crate::{Entry, Probe};
use nv_base::Kept;
use std::marker::Model;
use std::mem;

/// An ordered map. A clause sees it as the list of its entries, whose keys rise, so that no key is there twice.
#[derive(Drop)]
pub struct Map<K: Ord, V> {
    root: Tree<K, V>,
}

impl<K: Ord, V> Model for Map<K, V> {
    ghost use Rattle.std.specs.Prelude.{List};
    ghost use Rattle.nv_map.specs.Map.{KeysRise};
    ghost use Rattle.nv_map.specs.Node.{tree_entries};

    ghost Value = { List (K × V) };

    ghost view = { λ map. tree_entries map.root };

    ghost invariant = { λ map. KeysRise K.cmp (tree_entries map.root) };
}

impl<K: Ord + Kept, V> Map<K, V> {
    ghost use Rattle.nv_map.specs.Map.{KeysRise, value_at, entry_at, with_entry, without_key, with_value, entry_after, value_by, entry_by, without_by, entry_above};

    /// The empty map. It takes no memory.
    pub fn new() -> Self
        ensures { result ≡ [] }
    {
        Map { root: None }
    }

    /// Whether there is no entry.
    pub fn is_empty(&self) -> bool
        ensures { IsTrue result ↔ (self.now ≡ []) }
    {
        self.root.is_none()
    }

    /// How many levels the tree has, counted anew: no more than half as many again as the number of entries
    /// has binary digits. No clause speaks of it.
    pub fn levels(&self) -> usize {
        levels(&self.root)
    }

    /// The value at a key.
    pub fn get(&self, key: &K) -> Option<&V>
        ensures value { option_copied result ≡ value_at K.cmp key.now self.now }
        ensures rise { KeysRise K.cmp self.now }
    {
        value_at(&self.root, key)
    }

    /// The entry of the least key above the one given, or the first one where none is given.
    pub fn first_after(&self, key: Option<&K>) -> Option<(&K, &V)>
        ensures entry { option_map (λ e. (e.0.now, e.1.now)) result ≡ entry_after K.cmp (option_copied key.entry) self.now }
        ensures rise { KeysRise K.cmp self.now }
    {
        match key {
            None => first(&self.root),
            Some(key) => first_above(&self.root, key),
        }
    }

    /// The value at the key that the probe is equal to.
    pub fn get_by<P: Probe<K>>(&self, probe: &P) -> Option<&V>
        ensures value { option_copied result ≡ value_by (P.order probe.now) self.now }
        ensures rise { KeysRise K.cmp self.now }
    {
        value_at(&self.root, probe)
    }

    /// The entry of the least key that the probe is below.
    pub fn first_above<P: Probe<K>>(&self, probe: &P) -> Option<(&K, &V)>
        ensures entry { option_map (λ e. (e.0.now, e.1.now)) result ≡ entry_above (P.order probe.now) self.now }
        ensures rise { KeysRise K.cmp self.now }
    {
        first_above(&self.root, probe)
    }

    /// Puts an entry in at its place. No entry has its key.
    pub fn put(&mut self, entry: Entry<K, V>)
        requires { value_at K.cmp entry.0 self.old ≡ None }
        ensures entries { self.new ≡ with_entry K.cmp entry self.old }
        ensures rise { KeysRise K.cmp self.old }
    {
        let root = put_into(self.root.take(), entry);
        match mem::replace(&mut self.root, Some(root)) {
            None => {}
            Some(_) => unreachable!(),
        }
    }

    /// Takes the entry of a key out, with its room. Where there is none, nothing changes.
    pub fn take(&mut self, key: &K) -> Option<Entry<K, V>>
        ensures entry { result ≡ entry_at K.cmp key.now self.old }
        ensures entries { self.new ≡ without_key K.cmp key.now self.old }
        ensures rise { KeysRise K.cmp self.old }
    {
        self.take_by(key)
    }

    /// Takes the entry of the key that the probe is equal to out, with its room. Where there is none, nothing changes.
    pub fn take_by<P: Probe<K>>(&mut self, probe: &P) -> Option<Entry<K, V>>
        ensures entry { result ≡ entry_by (P.order probe.now) self.old }
        ensures entries { self.new ≡ without_by (P.order probe.now) self.old }
        ensures rise { KeysRise K.cmp self.old }
    {
        let (taken, rest) = take_from(self.root.take(), probe);
        match mem::replace(&mut self.root, rest) {
            None => {}
            Some(_) => unreachable!(),
        }
        taken
    }

    /// Puts another value at a key that is there, and answers the old one.
    pub fn exchange(&mut self, key: &K, value: V) -> V
        requires { IsSome (value_at K.cmp key.now self.old) }
        ensures old { Some result ≡ value_at K.cmp key.now self.old }
        ensures entries { self.new ≡ with_value K.cmp key.now value self.old }
        ensures rise { KeysRise K.cmp self.old }
    {
        exchange_in(&mut self.root, key, value)
    }
}
