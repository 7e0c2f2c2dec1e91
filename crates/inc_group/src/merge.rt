//! The members of a group after changes of some of them: both are gone through once, by rising key.
ghost use Rattle.std.specs.Prelude.{◌≡◌, [], ◌∷◌, ◌++◌, OnOk, IfOk};
ghost use Rattle.std.specs.Option.{option_copied};
ghost use Rattle.nv_map.specs.Map.{KeysRise};
ghost use Rattle.inc_table.specs.declared.delta.Change.TheVariants.{Gone};
ghost use Rattle.inc_table.specs.Delta.{IsAbove, IsApplied, left_by};
ghost use Rattle.inc_table.specs.inner.Walk.{IsBelow, entry_list};
ghost use Rattle.inc_group.specs.inner.Moves.{IsWhole, entries_in};

use crate::Members;
use inc_table::{Change, Owned};
use nv_base::{Kept, OutOfMemory};
use std::alloc::Global;
use std::cmp::Ordering;

/// The members after these changes, or none where no member is left.
pub(crate) fn members_after<K: Ord + Kept + Drop, V: Kept + Drop>(
    alloc: Global,
    old: Option<&Members<K, V>>,
    changes: &Owned<K, Change<V>>,
) -> Result<Option<Members<K, V>>, OutOfMemory>
    ensures applied { IfOk result (λ members. IsApplied K.cmp changes.now (entries_in (option_copied old.entry)) (entries_in members)) }
    ensures whole { IfOk result (λ members. IsWhole K.cmp members) }
{
    let members = merge_into(alloc, old, changes)?;
    if members.is_empty() {
        Ok(None)
    } else {
        Ok(Some(members))
    }
}

// The members after these changes, where there may have been none.
fn merge_into<K: Ord + Kept + Drop, V: Kept + Drop>(
    alloc: Global,
    old: Option<&Members<K, V>>,
    changes: &Owned<K, Change<V>>,
) -> Result<Members<K, V>, OutOfMemory>
    ensures applied { IfOk result (λ members. IsApplied K.cmp changes.now (entries_in (option_copied old.entry)) members) }
    ensures rise { IfOk result (λ members. KeysRise K.cmp members) }
{
    match old {
        None => {
            let none = Members::new(alloc);
            merge(alloc, none.as_slice(), changes)
        }
        Some(old) => merge(alloc, old.as_slice(), changes),
    }
}

// The members after these changes.
fn merge<K: Ord + Kept + Drop, V: Kept + Drop>(
    alloc: Global,
    old: &[(K, V)],
    changes: &Owned<K, Change<V>>,
) -> Result<Members<K, V>, OutOfMemory>
    requires { KeysRise K.cmp old.now }
    ensures applied { IfOk result (λ members. IsApplied K.cmp changes.now old.now members) }
    ensures rise { IfOk result (λ members. KeysRise K.cmp members) }
{
    let mut members = Members::new(alloc);
    let mut rest = old;
    for (key, change) in changes.iter() {
        rest = copy_below(alloc, rest, key, &mut members)?;
        put(alloc, key, change, &mut members)?;
    }
    copy_all(alloc, rest, &mut members)?;
    Ok(members)
}

// Copies the members below a key, and answers those above it.
fn copy_below<'a, K: Ord + Kept + Drop, V: Kept + Drop>(
    alloc: Global,
    rest: &'a [(K, V)],
    key: &K,
    members: &mut Members<K, V>,
) -> Result<&'a [(K, V)], OutOfMemory>
    requires above { IsAbove K.cmp key.now members.old }
    requires rise { KeysRise K.cmp (members.old ++ rest.now) }
    ensures applied { IfOk result (λ after. IsApplied K.cmp ((key.now, Gone) ∷ []) (members.old ++ rest.now) (members.new ++ after.now)) }
    ensures rise { IfOk result (λ after. KeysRise K.cmp (members.new ++ after.now)) }
    ensures above { OnOk result (IsAbove K.cmp key.now members.new) }
    ensures below { IfOk result (λ after. IsBelow K.cmp key.now after.now) }
{
    let mut rest = rest;
    while let Some((first, after)) = rest.split_first() {
        match first.0.cmp(key) {
            Ordering::Less => members.push(first.0.copy(alloc)?, first.1.copy(alloc)?)?,
            Ordering::Equal => return Ok(after),
            Ordering::Greater => return Ok(rest),
        }
        rest = after;
    }
    Ok(rest)
}

// Puts a member last, where its change puts a value.
fn put<K: Ord + Kept + Drop, V: Kept + Drop>(
    alloc: Global,
    key: &K,
    change: &Change<V>,
    members: &mut Members<K, V>,
) -> Result<(), OutOfMemory>
    requires { IsAbove K.cmp key.now members.old }
    ensures { OnOk result (members.new ≡ members.old ++ entry_list key.now (left_by change.now)) }
{
    match change {
        Change::Gone => Ok(()),
        Change::Put(value) => members.push(key.copy(alloc)?, value.copy(alloc)?),
    }
}

// Copies members, which are above those that are there.
fn copy_all<K: Ord + Kept + Drop, V: Kept + Drop>(
    alloc: Global,
    rest: &[(K, V)],
    members: &mut Members<K, V>,
) -> Result<(), OutOfMemory>
    requires { KeysRise K.cmp (members.old ++ rest.now) }
    ensures { OnOk result (members.new ≡ members.old ++ rest.now) }
{
    let mut rest = rest;
    while let Some((first, after)) = rest.split_first() {
        members.push(first.0.copy(alloc)?, first.1.copy(alloc)?)?;
        rest = after;
    }
    Ok(())
}
