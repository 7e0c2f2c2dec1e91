//! A table of left entries is brought to its inputs key by key, by rising key.
ghost use Rattle.std.specs.Prelude.{◌≡◌, OnOk, IfOk, Some, option_and_then};
ghost use Rattle.std.specs.Option.{option_map};
ghost use Rattle.nv_map.specs.Map.{KeysRise, value_at};
ghost use Rattle.inc_table.specs.Delta.{IsApplied, IsDifference, alters, alters_each, left_by};
ghost use Rattle.inc_table.specs.Nested.{value_in};
ghost use Rattle.inc_join.specs.Join.{joined, lefts_of, same_joined, with_right};
ghost use Rattle.inc_join.specs.inner.Index.{Covers, IsIndexed, IsRejoined, IsTouched, KeepsOthers, again_at};

use crate::Link;
use inc_table::{Change, Delta, Nested, Owned};
use nv_base::{Kept, OutOfMemory};
use std::alloc::Global;

/// Left entries, each with the right value that it names.
pub(crate) type Table<L> = Owned<
    <L as Link>::LeftKey,
    (<L as Link>::Left, Option<<L as Link>::Right>),
>;

/// At each right key the left keys that name it.
pub(crate) type Index<L> = Nested<<L as Link>::RightKey, <L as Link>::LeftKey, ()>;

/// Applies a delta to the left values, joins what it puts, and tells what changed.
pub(crate) fn apply_left<L: Link>(
    alloc: Global,
    link: &L,
    rights: &Owned<L::RightKey, L::Right>,
    table: &mut Table<L>,
    index: &mut Index<L>,
    delta: Delta<L::LeftKey, L::Left>,
) -> Result<Delta<L::LeftKey, (L::Left, Option<L::Right>)>, OutOfMemory>
where
    L::LeftKey: Drop,
    L::Left: Drop,
    L::RightKey: Drop,
    L::Right: Drop,
    requires joined { table.old ≡ joined L.RightKey.cmp L.link_of (lefts_of table.old) rights.now }
    requires indexed { IsIndexed L.LeftKey.cmp L.RightKey.cmp L.link_of table.old index.old }
    ensures left { OnOk result (IsApplied L.LeftKey.cmp delta (lefts_of table.old) (lefts_of table.new)) }
    ensures table { OnOk result (table.new ≡ joined L.RightKey.cmp L.link_of (lefts_of table.new) rights.now) }
    ensures rise { OnOk result (KeysRise L.LeftKey.cmp table.new) }
    ensures indexed { OnOk result (IsIndexed L.LeftKey.cmp L.RightKey.cmp L.link_of table.new index.new) }
    ensures changed { IfOk result (λ changed. IsDifference L.LeftKey.cmp (same_joined L.Left.eq L.Right.eq) table.old table.new changed) }
{
    let mut changed = table.unchanged();
    for (key, change) in delta.into_items() {
        unname(alloc, link, table, index, &key)?;
        let entry = join(alloc, link, rights, index, &key, change)?;
        table.change_at(&key, entry, &mut changed)?;
    }
    Ok(changed)
}

// Takes a left key out of the index, from where its value names.
fn unname<L: Link>(
    alloc: Global,
    link: &L,
    table: &Table<L>,
    index: &mut Index<L>,
    key: &L::LeftKey,
) -> Result<(), OutOfMemory>
where
    L::LeftKey: Drop,
    L::Left: Drop,
    L::RightKey: Drop,
    L::Right: Drop,
    ensures others { OnOk result (KeepsOthers L.LeftKey.cmp L.RightKey.cmp key.now index.old index.new) }
{
    match table.get(key) {
        None => Ok(()),
        Some(entry) => match link.link(alloc, &entry.0)? {
            None => Ok(()),
            Some(right) => index.remove(&right, key),
        },
    }
}

// What is at a left key after a change: its value with the right value that it names, of which the index is told.
fn join<L: Link>(
    alloc: Global,
    link: &L,
    rights: &Owned<L::RightKey, L::Right>,
    index: &mut Index<L>,
    key: &L::LeftKey,
    change: Change<L::Left>,
) -> Result<Option<(L::Left, Option<L::Right>)>, OutOfMemory>
where
    L::LeftKey: Drop,
    L::Left: Drop,
    L::RightKey: Drop,
    L::Right: Drop,
    ensures entry { IfOk result (λ entry. entry ≡ option_map (with_right L.RightKey.cmp L.link_of rights.now) (left_by change)) }
    ensures others { OnOk result (KeepsOthers L.LeftKey.cmp L.RightKey.cmp key.now index.old index.new) }
    ensures named { OnOk result ((right : L.RightKey) → option_and_then L.link_of (left_by change) ≡ Some right → value_in L.RightKey.cmp L.LeftKey.cmp right key.now index.new ≡ Some tt) }
{
    match change {
        Change::Gone => Ok(None),
        Change::Put(left) => {
            let named = link.link(alloc, &left)?;
            let right = copy_named(alloc, rights, &named)?;
            name(index, key, &named)?;
            Ok(Some((left, right)))
        }
    }
}

// A copy of the value that is named, if it is there.
fn copy_named<K: Ord + Kept + Drop, V: Kept + Drop>(
    alloc: Global,
    entries: &Owned<K, V>,
    named: &Option<K>,
) -> Result<Option<V>, OutOfMemory>
    ensures { IfOk result (λ copied. copied ≡ option_and_then (λ key. value_at K.cmp key entries.now) named.now) }
{
    match named {
        None => Ok(None),
        Some(key) => match entries.get(key) {
            None => Ok(None),
            Some(value) => Ok(Some(value.copy(alloc)?)),
        },
    }
}

// Puts a left key into the index under the right key that it names, if it names one.
fn name<K: Ord + Kept + Drop, Q: Ord + Kept + Drop>(
    index: &mut Nested<Q, K, ()>,
    key: &K,
    named: &Option<Q>,
) -> Result<(), OutOfMemory>
    ensures others { OnOk result (KeepsOthers K.cmp Q.cmp key.now index.old index.new) }
    ensures named { OnOk result ((right : Q) → named.now ≡ Some right → value_in Q.cmp K.cmp right key.now index.new ≡ Some tt) }
{
    match named {
        None => Ok(()),
        Some(right) => index.set(right, key, ()),
    }
}

/// Applies a delta to the right values, joins the left values that name what it changes anew, and tells what changed.
pub(crate) fn apply_right<L: Link>(
    alloc: Global,
    link: &L,
    rights: &mut Owned<L::RightKey, L::Right>,
    table: &mut Table<L>,
    index: &Index<L>,
    delta: Delta<L::RightKey, L::Right>,
) -> Result<Delta<L::LeftKey, (L::Left, Option<L::Right>)>, OutOfMemory>
where
    L::LeftKey: Drop,
    L::Left: Drop,
    L::RightKey: Drop,
    L::Right: Drop,
    requires joined { table.old ≡ joined L.RightKey.cmp L.link_of (lefts_of table.old) rights.old }
    requires indexed { IsIndexed L.LeftKey.cmp L.RightKey.cmp L.link_of table.old index.now }
    ensures left { OnOk result (lefts_of table.new ≡ lefts_of table.old) }
    ensures right { OnOk result (IsApplied L.RightKey.cmp delta rights.old rights.new) }
    ensures table { OnOk result (table.new ≡ joined L.RightKey.cmp L.link_of (lefts_of table.new) rights.new) }
    ensures indexed { OnOk result (IsIndexed L.LeftKey.cmp L.RightKey.cmp L.link_of table.new index.now) }
    ensures changed { IfOk result (λ changed. IsDifference L.LeftKey.cmp (same_joined L.Left.eq L.Right.eq) table.old table.new changed) }
{
    let mut touched = Owned::new(alloc);
    for (key, change) in delta.into_items() {
        touch(index, &key, &mut touched)?;
        rights.apply(&key, change)?;
    }
    let changed = rejoin(alloc, link, rights, table, &touched)?;
    Ok(changed)
}

// Adds the left keys that name a right key.
fn touch<K: Ord + Kept + Drop, Q: Ord + Kept + Drop>(
    index: &Nested<Q, K, ()>,
    right: &Q,
    touched: &mut Owned<K, ()>,
) -> Result<(), OutOfMemory>
    ensures kept { OnOk result (Covers K.cmp touched.old touched.new) }
    ensures covered { OnOk result (IsTouched K.cmp Q.cmp index.now touched.new right.now) }
{
    match index.part(right) {
        None => Ok(()),
        Some(keys) => add_keys(keys, touched),
    }
}

// Adds keys.
fn add_keys<K: Ord + Kept + Drop>(
    keys: &Owned<K, ()>,
    touched: &mut Owned<K, ()>,
) -> Result<(), OutOfMemory>
    ensures kept { OnOk result (Covers K.cmp touched.old touched.new) }
    ensures covered { OnOk result (Covers K.cmp keys.now touched.new) }
{
    for (key, _) in keys.iter() {
        touched.set(key, ())?;
    }
    Ok(())
}

// Joins the left values at these keys anew, and tells what changed.
fn rejoin<L: Link>(
    alloc: Global,
    link: &L,
    rights: &Owned<L::RightKey, L::Right>,
    table: &mut Table<L>,
    touched: &Owned<L::LeftKey, ()>,
) -> Result<Delta<L::LeftKey, (L::Left, Option<L::Right>)>, OutOfMemory>
where
    L::LeftKey: Drop,
    L::Left: Drop,
    L::RightKey: Drop,
    L::Right: Drop,
    ensures table { OnOk result (IsRejoined L.LeftKey.cmp (with_right L.RightKey.cmp L.link_of rights.now) touched.now table.old table.new) }
    ensures rise { OnOk result (KeysRise L.LeftKey.cmp table.old × KeysRise L.LeftKey.cmp table.new) }
    ensures changed { IfOk result (λ changed. IsDifference L.LeftKey.cmp (same_joined L.Left.eq L.Right.eq) table.old table.new changed) }
{
    let mut changed = table.unchanged();
    for (key, _) in touched.iter() {
        let entry = join_again(alloc, link, rights, table, key)?;
        table.change_at(key, entry, &mut changed)?;
    }
    Ok(changed)
}

// The left value of a key with the right value that it names now.
fn join_again<L: Link>(
    alloc: Global,
    link: &L,
    rights: &Owned<L::RightKey, L::Right>,
    table: &Table<L>,
    key: &L::LeftKey,
) -> Result<Option<(L::Left, Option<L::Right>)>, OutOfMemory>
where
    L::LeftKey: Drop,
    L::Left: Drop,
    L::RightKey: Drop,
    L::Right: Drop,
    ensures entry { IfOk result (λ entry. entry ≡ again_at (with_right L.RightKey.cmp L.link_of rights.now) (value_at L.LeftKey.cmp key.now table.now)) }
    ensures rise { KeysRise L.LeftKey.cmp table.now }
{
    match table.get(key) {
        None => Ok(None),
        Some(entry) => {
            let left = entry.0.copy(alloc)?;
            let named = link.link(alloc, &left)?;
            let right = copy_named(alloc, rights, &named)?;
            Ok(Some((left, right)))
        }
    }
}

/// Whether each change of a delta changes a left value.
pub(crate) fn alters_left<K: Ord + Kept + Drop, A: Kept + Drop, B: Drop>(
    table: &Owned<K, (A, Option<B>)>,
    delta: &Delta<K, A>,
) -> bool
    ensures { result ≡ alters_each K.cmp A.eq delta.now (lefts_of table.now) }
{
    delta
        .as_slice()
        .iter()
        .all(|entry| alters_at(table, &entry.0, &entry.1))
}

// Whether a change at a key changes a left value.
fn alters_at<K: Ord + Kept + Drop, A: Kept + Drop, B: Drop>(
    table: &Owned<K, (A, Option<B>)>,
    key: &K,
    change: &Change<A>,
) -> bool
    ensures { result ≡ alters A.eq change.now (value_at K.cmp key.now (lefts_of table.now)) }
{
    match (change, table.get(key)) {
        (Change::Put(_), None) => true,
        (Change::Put(left), Some(old)) => old.0 != *left,
        (Change::Gone, None) => false,
        (Change::Gone, Some(_)) => true,
    }
}
