ghost use Rattle.std.specs.Prelude.{◌≡◌, ◌++◌, OnOk, IfOk, IsTrue};
ghost use Rattle.std.specs.Option.{option_copied};
ghost use Rattle.nv_map.specs.Map.{KeysRise};
ghost use Rattle.inc_table.specs.Delta.{IsAbove, alters_each, change_between, told_at};
ghost use Rattle.inc_feed.specs.Feed.{IsFeed, LeadsTo, TellsChange};

use crate::{Entries, Keys, Wanted};
use inc_table::{Change, Delta};
use nv_base::{Kept, OutOfMemory};
use std::alloc::Global;

/// The delta that leads, at each of these keys, from what is there to what is wanted. It tells no key where what is there is wanted as
/// it is, so it may be handed to a node whose inputs are those entries. Where memory runs out the answer is `OutOfMemory`.
pub fn delta_of<W: Wanted, E: Entries<W::Key, W::Value>>(
    alloc: Global,
    wanted: &W,
    keys: &Keys<W::Key>,
    there: &E,
) -> Result<Delta<W::Key, W::Value>, OutOfMemory>
where
    W::Key: Drop,
    W::Value: Drop,
    ensures feed { IfOk result (λ delta. IsFeed W.Key.cmp W.Value.eq keys.now (E.entries_of there.now) (W.wanted_of wanted.now) delta) }
    ensures rise { IfOk result (λ delta. KeysRise W.Key.cmp delta) }
    ensures alters { IfOk result (λ delta. IsTrue (alters_each W.Key.cmp W.Value.eq delta (E.entries_of there.now))) }
    ensures tells { IfOk result (λ delta. TellsChange W.Key.cmp W.Value.eq keys.now (E.entries_of there.now) (W.wanted_of wanted.now) delta) }
    ensures leads { IfOk result (λ delta. LeadsTo W.Key.cmp keys.now (E.entries_of there.now) (W.wanted_of wanted.now) delta) }
{
    let mut delta = Delta::new(alloc);
    for key in keys.as_slice() {
        let new = wanted.wanted(alloc, key)?;
        tell(alloc, key, there.value(key), new, &mut delta)?;
    }
    Ok(delta)
}

// Tells what changes at a key, where anything does.
fn tell<K: Ord + Kept + Drop, V: Kept + Drop>(
    alloc: Global,
    key: &K,
    old: Option<&V>,
    new: Option<V>,
    delta: &mut Delta<K, V>,
) -> Result<(), OutOfMemory>
    requires { IsAbove K.cmp key.now delta.old }
    ensures { OnOk result (delta.new ≡ delta.old ++ told_at key.now (change_between V.eq (option_copied old.entry) new)) }
{
    match change_between(old, new) {
        None => Ok(()),
        Some(change) => delta.push(key.copy(alloc)?, change),
    }
}

// What changes, where anything does.
fn change_between<V: Kept + Drop>(old: Option<&V>, new: Option<V>) -> Option<Change<V>>
    ensures { result ≡ change_between V.eq (option_copied old.entry) new }
{
    match (old, new) {
        (None, None) => None,
        (None, Some(new)) => Some(Change::Put(new)),
        (Some(_), None) => Some(Change::Gone),
        (Some(old), Some(new)) => {
            if *old == new {
                return None;
            }
            Some(Change::Put(new))
        }
    }
}
