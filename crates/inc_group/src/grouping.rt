//! A table of groups is brought to its inputs: what becomes of each key in its groups is told group by group, by rising group.
ghost use Rattle.std.specs.Prelude.{◌≡◌, OnOk, IfOk};
ghost use Rattle.nv_map.specs.Map.{KeysRise, value_at};
ghost use Rattle.inc_table.specs.declared.delta.Change.TheVariants.{Gone};
ghost use Rattle.inc_table.specs.Delta.{IsApplied, IsDifference, left_by};
ghost use Rattle.inc_group.specs.Group.{IsGrouped, same_members};
ghost use Rattle.inc_group.specs.inner.Moves.{AreWhole, IsMoved, IsRegrouped, IsTold, groups_in};

use crate::merge::members_after;
use crate::{Groups, Members};
use inc_table::{Change, Delta, Nested, Owned};
use nv_base::{Kept, OutOfMemory};
use std::alloc::Global;

/// At each group its members.
pub(crate) type Table<G> = Owned<
    <G as Groups>::Group,
    Members<<G as Groups>::Key, <G as Groups>::Value>,
>;

// At each group what becomes of keys there.
type Moves<G> = Nested<<G as Groups>::Group, <G as Groups>::Key, Change<<G as Groups>::Value>>;

/// Applies a delta to the inputs, changes the groups that its keys leave or enter, and tells what changed.
pub(crate) fn apply<G: Groups>(
    alloc: Global,
    groups: &G,
    inputs: &mut Owned<G::Key, G::Value>,
    table: &mut Table<G>,
    delta: Delta<G::Key, G::Value>,
) -> Result<Delta<G::Group, Members<G::Key, G::Value>>, OutOfMemory>
where
    G::Key: Drop,
    G::Value: Drop,
    G::Group: Drop,
    requires rise { KeysRise G.Key.cmp inputs.old }
    requires grouped { IsGrouped G.Group.cmp G.groups_of inputs.old table.old }
    ensures inputs { OnOk result (IsApplied G.Key.cmp delta inputs.old inputs.new) }
    ensures rise { OnOk result (KeysRise G.Key.cmp inputs.new) }
    ensures grouped { OnOk result (IsGrouped G.Group.cmp G.groups_of inputs.new table.new) }
    ensures changed { IfOk result (λ changed. IsDifference G.Group.cmp (same_members G.Key.eq G.Value.eq) table.old table.new changed) }
    ensures told { IfOk result (λ changed. KeysRise G.Group.cmp changed) }
{
    let moves = apply_to_inputs(alloc, groups, inputs, delta)?;
    let changed = regroup(alloc, table, moves.parts())?;
    drop(moves);
    Ok(changed)
}

// Applies a delta to the inputs, and tells what becomes of its keys in the groups that they leave or enter.
fn apply_to_inputs<G: Groups>(
    alloc: Global,
    groups: &G,
    inputs: &mut Owned<G::Key, G::Value>,
    delta: Delta<G::Key, G::Value>,
) -> Result<Moves<G>, OutOfMemory>
where
    G::Key: Drop,
    G::Value: Drop,
    G::Group: Drop,
    requires { KeysRise G.Key.cmp inputs.old }
    ensures inputs { OnOk result (IsApplied G.Key.cmp delta inputs.old inputs.new) }
    ensures rise { OnOk result (KeysRise G.Key.cmp inputs.new) }
    ensures moved { IfOk result (λ moves. IsMoved G.Key.cmp G.Group.cmp G.groups_of inputs.old inputs.new moves) }
{
    let mut moves = Nested::new(alloc);
    for (key, change) in delta.into_items() {
        leave(alloc, groups, inputs, &key, &mut moves)?;
        enter(alloc, groups, &key, &change, &mut moves)?;
        inputs.apply(&key, change)?;
    }
    Ok(moves)
}

// Tells that a key goes from the groups of its value.
fn leave<G: Groups>(
    alloc: Global,
    groups: &G,
    inputs: &Owned<G::Key, G::Value>,
    key: &G::Key,
    moves: &mut Moves<G>,
) -> Result<(), OutOfMemory>
where
    G::Key: Drop,
    G::Value: Drop,
    G::Group: Drop,
    ensures { OnOk result (IsTold G.Key.cmp G.Group.cmp (groups_in G.groups_of key.now (value_at G.Key.cmp key.now inputs.now)) (key.now, Gone) moves.old moves.new) }
{
    match inputs.get(key) {
        None => Ok(()),
        Some(value) => {
            let left = groups.groups(alloc, key, value)?;
            tell(alloc, left.as_slice(), key, &Change::Gone, moves)
        }
    }
}

// Tells that a value is put into its groups at its key.
fn enter<G: Groups>(
    alloc: Global,
    groups: &G,
    key: &G::Key,
    change: &Change<G::Value>,
    moves: &mut Moves<G>,
) -> Result<(), OutOfMemory>
where
    G::Key: Drop,
    G::Value: Drop,
    G::Group: Drop,
    ensures { OnOk result (IsTold G.Key.cmp G.Group.cmp (groups_in G.groups_of key.now (left_by change.now)) (key.now, change.now) moves.old moves.new) }
{
    match change {
        Change::Gone => Ok(()),
        Change::Put(value) => {
            let entered = groups.groups(alloc, key, value)?;
            tell(alloc, entered.as_slice(), key, change, moves)
        }
    }
}

// Tells this change of a key in each of these groups.
fn tell<K: Ord + Kept + Drop, V: Kept + Drop, A: Ord + Kept + Drop>(
    alloc: Global,
    groups: &[A],
    key: &K,
    change: &Change<V>,
    moves: &mut Nested<A, K, Change<V>>,
) -> Result<(), OutOfMemory>
    ensures { OnOk result (IsTold K.cmp A.cmp groups.now (key.now, change.now) moves.old moves.new) }
{
    for group in groups {
        moves.set(group, key, copy_change(alloc, change)?)?;
    }
    Ok(())
}

// The same change.
fn copy_change<V: Kept + Drop>(alloc: Global, change: &Change<V>) -> Result<Change<V>, OutOfMemory>
    ensures { IfOk result (λ copied. copied ≡ change.now) }
{
    match change {
        Change::Gone => Ok(Change::Gone),
        Change::Put(value) => Ok(Change::Put(value.copy(alloc)?)),
    }
}

// Changes the members of each group that has moves, and tells what changed.
fn regroup<K: Ord + Kept + Drop, V: Kept + Drop, A: Ord + Kept + Drop>(
    alloc: Global,
    table: &mut Owned<A, Members<K, V>>,
    moves: &Owned<A, Owned<K, Change<V>>>,
) -> Result<Delta<A, Members<K, V>>, OutOfMemory>
    requires { AreWhole A.cmp K.cmp table.old }
    ensures table { OnOk result (IsRegrouped A.cmp K.cmp moves.now table.old table.new) }
    ensures whole { OnOk result (AreWhole A.cmp K.cmp table.new) }
    ensures rise { OnOk result (KeysRise A.cmp table.new) }
    ensures changed { IfOk result (λ changed. IsDifference A.cmp (same_members K.eq V.eq) table.old table.new changed) }
    ensures told { IfOk result (λ changed. KeysRise A.cmp changed) }
{
    let mut changed = table.unchanged();
    for (group, changes) in moves.iter() {
        let members = members_after(alloc, table.get(group), changes)?;
        table.change_at(group, members, &mut changed)?;
    }
    Ok(changed)
}
