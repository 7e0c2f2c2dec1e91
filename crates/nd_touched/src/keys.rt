ghost use Rattle.std.specs.Prelude.{◌≡◌, ◌||◌, ◌++◌, is_some, IfOk, OnOk};
ghost use Rattle.std.specs.List.{list_any};
ghost use Rattle.std.specs.Ordering.{is_eq};
ghost use Rattle.inc_feed.specs.Feed.{has_key};
ghost use Rattle.net_units.specs.Keys.{by_number};
ghost use Rattle.nv_base.specs.declared.object.ObjId.{ObjId};
ghost use Rattle.nv_map.specs.Map.{value_at};

use inc_feed::Keys;
use inc_table::Delta;
use nv_base::{Kept, ObjId, OutOfMemory};
use std::alloc::Global;

/// These keys, and those of which a delta tells a change. Where memory runs out the answer is `OutOfMemory`.
pub fn and_changed<K: Kept + Ord + Copy + Drop, V: Drop>(
    alloc: Global,
    keys: &Keys<K>,
    changed: &Delta<K, V>,
) -> Result<Keys<K>, OutOfMemory>
    ensures { IfOk result (λ all. (key : K) → has_key K.cmp key all ≡ (has_key K.cmp key keys.now || is_some (value_at K.cmp key changed.now))) }
{
    let mut all = Vec::new(alloc);
    all.extend_from_slice(keys.as_slice())?;
    for change in changed.as_slice() {
        all.push(change.0)?;
    }
    Ok(Keys::new(all))
}

/// These numbers, and the first of each of these pairs. Where memory runs out the answer is `OutOfMemory`.
pub fn and_owners(
    alloc: Global,
    keys: &Keys<ObjId>,
    pairs: &Keys<(ObjId, ObjId)>,
) -> Result<Keys<ObjId>, OutOfMemory>
    ensures { IfOk result (λ all. (key : ObjId) → has_key by_number key all ≡ (has_key by_number key keys.now || list_any (λ pair. is_eq (by_number key pair.0)) pairs.now)) }
{
    let mut all = Vec::new(alloc);
    all.extend_from_slice(keys.as_slice())?;
    for pair in pairs.as_slice() {
        all.push(pair.0)?;
    }
    Ok(Keys::new(all))
}
