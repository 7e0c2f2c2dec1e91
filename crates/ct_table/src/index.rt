//! What is done to the index of connections.
ghost use Rattle.std.specs.Prelude.{◌≡◌, ◌<◌, ◌≤◌, ◌&&◌, true, Some, None, cond, is_some, not, length};
ghost use Rattle.std.specs.List.{list_any};
ghost use Rattle.std.specs.Option.{option_or};
ghost use Rattle.indexmap.specs.IndexMap.{get, spare};
ghost use Rattle.indexmap.specs.IndexSet.{contains, spare as set_spare};
ghost use Rattle.ct_core.specs.declared.zone.Zone.{Zone};
ghost use Rattle.ct_core.specs.inner.Exact.{zones_equal};
ghost use Rattle.ct_core.specs.Changes.{connection_limit};
ghost use Rattle.ct_core.specs.Entry.{has};
ghost use Rattle.ct_table.specs.declared.key.Key.{Key};
ghost use Rattle.ct_table.specs.inner.Key.{key_on, keys_equal};
ghost use Rattle.ct_table.specs.inner.Index.{Places, is_place};

use crate::key::Key;
use ct_core::{Entry, Side, Zone};
use indexmap::{IndexMap, IndexSet};

/// Puts a place at a key that has none yet. There is room for a key.
pub(crate) fn put_first(map: &mut IndexMap<Key, u32>, key: Key, place: u32)
    requires { 0 < spare map.old }
    ensures { (k : Key) → get keys_equal map.new k ≡ option_or (get keys_equal map.old k) (cond (keys_equal key k) (Some place) None) }
{
    if !map.contains_key(&key) {
        match map.insert(key, place) {
            Ok(_) => {}
            Err(_) => unreachable!(),
        }
    }
}

/// Puts a zone among those that have an entry. There is room for one.
pub(crate) fn put_zone(zones: &mut IndexSet<Zone>, zone: Zone)
    requires { 0 < set_spare zones.old }
    ensures { (z : Zone) → contains zones_equal zones.new z ≡ cond (zones_equal zone z) true (contains zones_equal zones.old z) }
{
    match zones.insert(zone) {
        Ok(_) => {}
        Err(_) => unreachable!(),
    }
}

/// Takes the keys of a zone out.
pub(crate) fn take_zone(map: &mut IndexMap<Key, u32>, zone: Zone)
    ensures { (k : Key) → get keys_equal map.new k ≡ cond (zones_equal k.zone zone) None (get keys_equal map.old k) }
{
    map.retain(
        |key: &Key, place: &mut u32| -> bool
            ensures { (result ≡ not (zones_equal key.now.zone zone)) × (place.new ≡ place.old) }
        { key.zone != zone },
    );
}

/// Takes a key out where it has this place.
pub(crate) fn take_place(map: &mut IndexMap<Key, u32>, key: Key, place: u32)
    ensures { (k : Key) → get keys_equal map.new k ≡ cond (keys_equal key k && is_place place (get keys_equal map.old k)) None (get keys_equal map.old k) }
{
    if map.get(&key).copied() == Some(place) {
        map.swap_remove(&key);
    }
}

/// Writes the places that the keys of the entries have now. They are the keys that there are.
pub(crate) fn renumber(map: &mut IndexMap<Key, u32>, entries: &[Entry], side: Side)
    requires few { length entries.now ≤ connection_limit }
    requires keys { (k : Key) → is_some (get keys_equal map.old k) ≡ list_any (has side k.zone k.tuple) entries.now }
    ensures { Places side entries.now map.new }
{
    let mut rest = entries.len();
    while rest > 0 {
        rest -= 1;
        match map.insert(Key::of(&entries[rest], side), rest as u32) {
            Ok(_) => {}
            Err(_) => unreachable!(),
        }
    }
}
