//! A table of first members is brought to its inputs: each group has a mark at the key of each of its members, and where marks change
//! the first one is looked up anew.
ghost use Rattle.std.specs.Prelude.{◌≡◌, OnOk, IfOk};
ghost use Rattle.std.specs.Option.{option_map};
ghost use Rattle.nv_map.specs.Map.{KeysRise, first_entry, value_at};
ghost use Rattle.inc_table.specs.declared.delta.Change.TheVariants.{Gone, Put};
ghost use Rattle.inc_table.specs.Delta.{IsApplied, IsDifference, left_by};
ghost use Rattle.inc_table.specs.Nested.{IsChangedAt};
ghost use Rattle.inc_group.specs.inner.Moves.{groups_in};
ghost use Rattle.inc_first.specs.First.{HasFirsts};
ghost use Rattle.inc_first.specs.inner.Marks.{AreMarked, IsMarkedAt, IsTouched, IsUpdated, KeepsOthers, MarksRise, Rises, first_mark};

use inc_group::Groups;
use inc_table::{Change, Delta, Nested, Owned};
use nv_base::{Kept, OutOfMemory};
use std::alloc::Global;

/// At each group its first member.
pub(crate) type Table<G> = Owned<<G as Groups>::Group, <G as Groups>::Key>;

/// At each group the keys of its members.
pub(crate) type Marks<G> = Nested<<G as Groups>::Group, <G as Groups>::Key, ()>;

/// Applies a delta to the inputs, changes the marks of the groups that its keys leave or enter, looks their first members up, and tells
/// what changed.
pub(crate) fn apply<G: Groups>(
    alloc: Global,
    groups: &G,
    inputs: &mut Owned<G::Key, G::Value>,
    marks: &mut Marks<G>,
    table: &mut Table<G>,
    delta: Delta<G::Key, G::Value>,
) -> Result<Delta<G::Group, G::Key>, OutOfMemory>
where
    G::Key: Drop,
    G::Value: Drop,
    G::Group: Drop,
    requires rise { KeysRise G.Key.cmp inputs.old }
    requires marked { AreMarked G.Key.cmp G.Group.cmp G.groups_of inputs.old marks.old }
    requires firsts { HasFirsts G.Group.cmp G.groups_of inputs.old table.old }
    ensures inputs { OnOk result (IsApplied G.Key.cmp delta inputs.old inputs.new) }
    ensures rise { OnOk result (KeysRise G.Key.cmp inputs.new) }
    ensures marked { OnOk result (AreMarked G.Key.cmp G.Group.cmp G.groups_of inputs.new marks.new) }
    ensures firsts { OnOk result (HasFirsts G.Group.cmp G.groups_of inputs.new table.new) }
    ensures changed { IfOk result (λ changed. IsDifference G.Group.cmp G.Key.eq table.old table.new changed) }
    ensures told { IfOk result (λ changed. KeysRise G.Group.cmp changed) }
{
    let touched = apply_to_inputs(alloc, groups, inputs, marks, delta)?;
    let changed = update(alloc, marks, &touched, table)?;
    drop(touched);
    Ok(changed)
}

// Applies a delta to the inputs, changes the marks of its keys, and answers the groups that these leave or enter.
fn apply_to_inputs<G: Groups>(
    alloc: Global,
    groups: &G,
    inputs: &mut Owned<G::Key, G::Value>,
    marks: &mut Marks<G>,
    delta: Delta<G::Key, G::Value>,
) -> Result<Owned<G::Group, ()>, OutOfMemory>
where
    G::Key: Drop,
    G::Value: Drop,
    G::Group: Drop,
    requires rise { KeysRise G.Key.cmp inputs.old }
    requires marked { AreMarked G.Key.cmp G.Group.cmp G.groups_of inputs.old marks.old }
    ensures inputs { OnOk result (IsApplied G.Key.cmp delta inputs.old inputs.new) }
    ensures rise { OnOk result (KeysRise G.Key.cmp inputs.new) }
    ensures marked { OnOk result (AreMarked G.Key.cmp G.Group.cmp G.groups_of inputs.new marks.new) }
    ensures others { IfOk result (λ touched. KeepsOthers G.Key.cmp G.Group.cmp touched marks.old marks.new) }
{
    let mut touched = Owned::new(alloc);
    for (key, change) in delta.into_items() {
        leave(alloc, groups, inputs, &key, marks, &mut touched)?;
        enter(alloc, groups, &key, &change, marks, &mut touched)?;
        inputs.apply(&key, change)?;
    }
    Ok(touched)
}

// Takes a key out of the groups of its value.
fn leave<G: Groups>(
    alloc: Global,
    groups: &G,
    inputs: &Owned<G::Key, G::Value>,
    key: &G::Key,
    marks: &mut Marks<G>,
    touched: &mut Owned<G::Group, ()>,
) -> Result<(), OutOfMemory>
where
    G::Key: Drop,
    G::Value: Drop,
    G::Group: Drop,
    ensures marked { OnOk result (IsMarkedAt G.Key.cmp G.Group.cmp (groups_in G.groups_of key.now (value_at G.Key.cmp key.now inputs.now)) (key.now, Gone) marks.old marks.new) }
    ensures touched { OnOk result (IsTouched G.Group.cmp (groups_in G.groups_of key.now (value_at G.Key.cmp key.now inputs.now)) touched.old touched.new) }
{
    match inputs.get(key) {
        None => Ok(()),
        Some(value) => {
            let left = groups.groups(alloc, key, value)?;
            mark(left.as_slice(), key, &Change::Gone, marks, touched)
        }
    }
}

// Puts a key into the groups of the value that a change puts there.
fn enter<G: Groups>(
    alloc: Global,
    groups: &G,
    key: &G::Key,
    change: &Change<G::Value>,
    marks: &mut Marks<G>,
    touched: &mut Owned<G::Group, ()>,
) -> Result<(), OutOfMemory>
where
    G::Key: Drop,
    G::Value: Drop,
    G::Group: Drop,
    ensures marked { OnOk result (IsMarkedAt G.Key.cmp G.Group.cmp (groups_in G.groups_of key.now (left_by change.now)) (key.now, Put tt) marks.old marks.new) }
    ensures touched { OnOk result (IsTouched G.Group.cmp (groups_in G.groups_of key.now (left_by change.now)) touched.old touched.new) }
{
    match change {
        Change::Gone => Ok(()),
        Change::Put(value) => {
            let entered = groups.groups(alloc, key, value)?;
            mark(entered.as_slice(), key, &Change::Put(()), marks, touched)
        }
    }
}

// Changes the mark at a key in each of these groups, and adds them to the touched ones.
fn mark<K: Ord + Kept + Drop, A: Ord + Kept + Drop>(
    groups: &[A],
    key: &K,
    change: &Change<()>,
    marks: &mut Nested<A, K, ()>,
    touched: &mut Owned<A, ()>,
) -> Result<(), OutOfMemory>
    ensures marked { OnOk result (IsMarkedAt K.cmp A.cmp groups.now (key.now, change.now) marks.old marks.new) }
    ensures touched { OnOk result (IsTouched A.cmp groups.now touched.old touched.new) }
{
    for group in groups {
        mark_in(group, key, change, marks)?;
        touched.set(group, ())?;
    }
    Ok(())
}

// Changes the mark at a key in a group.
fn mark_in<K: Ord + Kept + Drop, A: Ord + Kept + Drop>(
    group: &A,
    key: &K,
    change: &Change<()>,
    marks: &mut Nested<A, K, ()>,
) -> Result<(), OutOfMemory>
    ensures { OnOk result (IsChangedAt A.cmp K.cmp ((group.now, key.now), change.now) marks.old marks.new) }
{
    match change {
        Change::Put(()) => marks.set(group, key, ()),
        Change::Gone => marks.remove(group, key),
    }
}

// Looks the first member of each of these groups up anew, and tells what changed.
fn update<K: Ord + Kept + Drop, A: Ord + Kept + Drop>(
    alloc: Global,
    marks: &Nested<A, K, ()>,
    touched: &Owned<A, ()>,
    table: &mut Owned<A, K>,
) -> Result<Delta<A, K>, OutOfMemory>
    ensures table { OnOk result (IsUpdated A.cmp marks.now touched.now table.old table.new) }
    ensures marks { OnOk result (MarksRise K.cmp A.cmp touched.now marks.now) }
    ensures rise { OnOk result (KeysRise A.cmp table.new) }
    ensures changed { IfOk result (λ changed. IsDifference A.cmp K.eq table.old table.new changed) }
    ensures told { IfOk result (λ changed. KeysRise A.cmp changed) }
{
    let mut changed = table.unchanged();
    for (group, _) in touched.iter() {
        let first = copy_first(alloc, marks, group)?;
        table.change_at(group, first, &mut changed)?;
    }
    Ok(changed)
}

// The first key that a group has a mark at.
fn copy_first<K: Ord + Kept + Drop, A: Ord + Kept + Drop>(
    alloc: Global,
    marks: &Nested<A, K, ()>,
    group: &A,
) -> Result<Option<K>, OutOfMemory>
    ensures first { IfOk result (λ first. first ≡ first_mark A.cmp group.now marks.now) }
    ensures rise { OnOk result (Rises K.cmp A.cmp (value_at A.cmp group.now marks.now)) }
{
    match marks.part(group) {
        None => Ok(None),
        Some(keys) => copy_first_key(alloc, keys),
    }
}

// The first of these keys.
fn copy_first_key<K: Ord + Kept + Drop>(
    alloc: Global,
    keys: &Owned<K, ()>,
) -> Result<Option<K>, OutOfMemory>
    ensures first { IfOk result (λ first. first ≡ option_map (λ e. e.0) (first_entry keys.now)) }
    ensures rise { KeysRise K.cmp keys.now }
{
    match keys.iter().next() {
        None => Ok(None),
        Some((key, _)) => Ok(Some(key.copy(alloc)?)),
    }
}
