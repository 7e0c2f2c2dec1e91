//! Outputs are made, and the table is brought to them key by key, by rising key.
ghost use Rattle.std.specs.Prelude.{◌≡◌, ◌∷◌, ◌++◌, [], nat_lt, length, count_by, true, false, OnOk, OnErr, IfOk, Some, None};
ghost use Rattle.std.specs.Option.{option_copied, option_map};
ghost use Rattle.nv_map.specs.Map.{KeysRise, value_at};
ghost use Rattle.inc_table.specs.Delta.{IsAbove, IsApplied, IsDifference, change_between, change_to, left_by, told_at};
ghost use Rattle.inc_table.specs.Maker.{more_made};
ghost use Rattle.inc_table.specs.Node.{outputs_of, is_put, made_by};
ghost use Rattle.inc_table.specs.inner.Walk.{entry_list, made_one};

use crate::ahead::{Ahead, least};
use crate::{Change, Delta, Maker, Owned, Report};
use nv_base::{Kept, OutOfMemory};
use std::alloc::Global;

/// Applies a delta to the inputs, and makes the outputs of what it puts, or, where it has more than `FALL` keys, all outputs.
pub(crate) fn apply_and_make<M: Maker, const FALL: usize>(
    alloc: Global,
    maker: &mut M,
    inputs: &mut Owned<M::Key, M::Input>,
    table: &mut Owned<M::Key, M::Out>,
    delta: Delta<M::Key, M::Input>,
) -> Result<Report<M::Key, M::Out>, OutOfMemory>
where
    M::Key: Drop,
    M::Input: Drop,
    M::Out: Drop,
    requires { table.old ≡ outputs_of M.out_of inputs.old }
    ensures inputs { OnOk result (IsApplied M.Key.cmp delta inputs.old inputs.new) }
    ensures table { OnOk result (table.new ≡ outputs_of M.out_of inputs.new) }
    ensures changed { IfOk result (λ report. IsDifference M.Key.cmp M.Out.eq table.old table.new report.changed) }
    ensures fell_back { IfOk result (λ report. report.fell_back ≡ nat_lt FALL (length delta)) }
    ensures made { IfOk result (λ report. report.made ≡ made_by FALL delta inputs.new) }
    ensures counted { IfOk result (λ report. M.made maker.new ≡ more_made report.made (M.made maker.old)) }
{
    if delta.as_slice().len() > FALL {
        return change_all(alloc, maker, inputs, table, delta);
    }
    change_each(alloc, maker, inputs, table, delta)
}

// Applies a delta to the inputs, and makes the outputs of what it puts.
fn change_each<M: Maker>(
    alloc: Global,
    maker: &mut M,
    inputs: &mut Owned<M::Key, M::Input>,
    table: &mut Owned<M::Key, M::Out>,
    delta: Delta<M::Key, M::Input>,
) -> Result<Report<M::Key, M::Out>, OutOfMemory>
where
    M::Key: Drop,
    M::Input: Drop,
    M::Out: Drop,
    requires { table.old ≡ outputs_of M.out_of inputs.old }
    ensures inputs { OnOk result (IsApplied M.Key.cmp delta inputs.old inputs.new) }
    ensures table { OnOk result (table.new ≡ outputs_of M.out_of inputs.new) }
    ensures changed { IfOk result (λ report. IsDifference M.Key.cmp M.Out.eq table.old table.new report.changed) }
    ensures fell_back { IfOk result (λ report. report.fell_back ≡ false) }
    ensures made { IfOk result (λ report. report.made ≡ count_by (λ change. is_put change.1) delta) }
    ensures counted { IfOk result (λ report. M.made maker.new ≡ more_made report.made (M.made maker.old)) }
{
    let made = count_puts(delta.as_slice());
    let mut changed = Delta::new(alloc);
    for (key, change) in delta.into_items() {
        let input = value_put(change);
        make_at(alloc, maker, &key, input.as_ref(), table, &mut changed)?;
        apply(inputs, &key, input)?;
    }
    Ok(Report {
        made,
        fell_back: false,
        changed,
    })
}

// Applies a delta to the inputs, and makes all outputs anew.
fn change_all<M: Maker>(
    alloc: Global,
    maker: &mut M,
    inputs: &mut Owned<M::Key, M::Input>,
    table: &mut Owned<M::Key, M::Out>,
    delta: Delta<M::Key, M::Input>,
) -> Result<Report<M::Key, M::Out>, OutOfMemory>
where
    M::Key: Drop,
    M::Input: Drop,
    M::Out: Drop,
    ensures inputs { OnOk result (IsApplied M.Key.cmp delta inputs.old inputs.new) }
    ensures table { OnOk result (table.new ≡ outputs_of M.out_of inputs.new) }
    ensures changed { IfOk result (λ report. IsDifference M.Key.cmp M.Out.eq table.old table.new report.changed) }
    ensures fell_back { IfOk result (λ report. report.fell_back ≡ true) }
    ensures made { IfOk result (λ report. report.made ≡ length inputs.new) }
    ensures counted { IfOk result (λ report. M.made maker.new ≡ more_made report.made (M.made maker.old)) }
{
    apply_all(inputs, delta)?;
    remake(alloc, maker, inputs, table)
}

/// Makes all outputs anew, key by key.
pub(crate) fn remake<M: Maker>(
    alloc: Global,
    maker: &mut M,
    inputs: &Owned<M::Key, M::Input>,
    table: &mut Owned<M::Key, M::Out>,
) -> Result<Report<M::Key, M::Out>, OutOfMemory>
where
    M::Key: Drop,
    M::Input: Drop,
    M::Out: Drop,
    ensures table { OnOk result (table.new ≡ outputs_of M.out_of inputs.now) }
    ensures changed { IfOk result (λ report. IsDifference M.Key.cmp M.Out.eq table.old table.new report.changed) }
    ensures fell_back { IfOk result (λ report. report.fell_back ≡ true) }
    ensures made { IfOk result (λ report. report.made ≡ length inputs.now) }
    ensures counted { IfOk result (λ report. M.made maker.new ≡ more_made report.made (M.made maker.old)) }
{
    let count = inputs.len();
    let mut made = Vec::with_capacity(alloc, count)?;
    let mut changed = Delta::new(alloc);
    let mut inputs_ahead = Ahead::new(inputs);
    let mut outs_ahead = Ahead::new(table);
    while let Some(key) = least(inputs_ahead.key(), outs_ahead.key()) {
        let input = inputs_ahead.take(key);
        let old = outs_ahead.take(key);
        make_next(alloc, maker, key, input, old, &mut made, &mut changed)?;
    }
    *table = Owned::from_rising(alloc, made)?;
    Ok(Report {
        made: count as u64,
        fell_back: true,
        changed,
    })
}

// Makes the output of a key, where it has an input, and tells what it is where another one was there, or none.
fn make_next<M: Maker>(
    alloc: Global,
    maker: &mut M,
    key: &M::Key,
    input: Option<&M::Input>,
    old: Option<&M::Out>,
    made: &mut Vec<(M::Key, M::Out)>,
    changed: &mut Delta<M::Key, M::Out>,
) -> Result<(), OutOfMemory>
where
    M::Key: Drop,
    M::Input: Drop,
    M::Out: Drop,
    requires { IsAbove M.Key.cmp key.now changed.old }
    ensures made { OnOk result (made.new.items ≡ made.old.items ++ entry_list key.now (option_map (M.out_of key.now) (option_copied input.entry))) }
    ensures told { OnOk result (changed.new ≡ changed.old ++ told_at key.now (change_between M.Out.eq (option_copied old.entry) (option_map (M.out_of key.now) (option_copied input.entry)))) }
    ensures counted { OnOk result (M.made maker.new ≡ made_one (option_copied input.entry) (M.made maker.old)) }
{
    let out = make_from(alloc, maker, key, input)?;
    tell(alloc, key, old, &out, changed)?;
    if let Some(out) = out {
        made.push((key.copy(alloc)?, out))?;
    }
    Ok(())
}

// Makes the output of a key, where it has an input.
fn make_from<M: Maker>(
    alloc: Global,
    maker: &mut M,
    key: &M::Key,
    input: Option<&M::Input>,
) -> Result<Option<M::Out>, OutOfMemory>
    ensures out { IfOk result (λ out. out ≡ option_map (M.out_of key.now) (option_copied input.entry)) }
    ensures counted { OnOk result (M.made maker.new ≡ made_one (option_copied input.entry) (M.made maker.old)) }
{
    match input {
        None => Ok(None),
        Some(input) => Ok(Some(maker.make(alloc, key, input)?)),
    }
}

// Tells what changed at a key, where anything did.
fn tell<K: Ord + Kept + Drop, V: Kept + Drop>(
    alloc: Global,
    key: &K,
    old: Option<&V>,
    new: &Option<V>,
    changed: &mut Delta<K, V>,
) -> Result<(), OutOfMemory>
    requires { IsAbove K.cmp key.now changed.old }
    ensures told { OnOk result (changed.new ≡ changed.old ++ told_at key.now (change_between V.eq (option_copied old.entry) new.now)) }
{
    match change_between(alloc, old, new)? {
        None => Ok(()),
        Some(change) => changed.push(key.copy(alloc)?, change),
    }
}

// What changed, where anything did.
fn change_between<V: Kept + Drop>(
    alloc: Global,
    old: Option<&V>,
    new: &Option<V>,
) -> Result<Option<Change<V>>, OutOfMemory>
    ensures { IfOk result (λ change. change ≡ change_between V.eq (option_copied old.entry) new.now) }
{
    match (old, new) {
        (None, None) => Ok(None),
        (None, Some(new)) => Ok(Some(Change::Put(new.copy(alloc)?))),
        (Some(_), None) => Ok(Some(Change::Gone)),
        (Some(old), Some(new)) => {
            if old == new {
                return Ok(None);
            }
            Ok(Some(Change::Put(new.copy(alloc)?)))
        }
    }
}

// Makes the output of a key anew. Where it has no input, it has no output.
fn make_at<M: Maker>(
    alloc: Global,
    maker: &mut M,
    key: &M::Key,
    input: Option<&M::Input>,
    table: &mut Owned<M::Key, M::Out>,
    changed: &mut Delta<M::Key, M::Out>,
) -> Result<(), OutOfMemory>
where
    M::Key: Drop,
    M::Input: Drop,
    M::Out: Drop,
    requires { IsAbove M.Key.cmp key.now changed.old }
    ensures applied { OnOk result (IsApplied M.Key.cmp ((key.now, change_to (option_map (M.out_of key.now) (option_copied input.entry))) ∷ []) table.old table.new) }
    ensures told { OnOk result (changed.new ≡ changed.old ++ told_at key.now (change_between M.Out.eq (value_at M.Key.cmp key.now table.old) (option_map (M.out_of key.now) (option_copied input.entry)))) }
    ensures rise { OnOk result (KeysRise M.Key.cmp table.new) }
    ensures counted { OnOk result (M.made maker.new ≡ made_one (option_copied input.entry) (M.made maker.old)) }
{
    let out = make_from(alloc, maker, key, input)?;
    table.change_at(key, out, changed)
}

// The value that a change puts, if it does.
fn value_put<V: Drop>(change: Change<V>) -> Option<V>
    ensures { result ≡ left_by change }
{
    match change {
        Change::Put(value) => Some(value),
        Change::Gone => None,
    }
}

// Puts a value at a key, or takes the one that is there out.
fn apply<K: Ord + Kept + Drop, V: Drop>(
    entries: &mut Owned<K, V>,
    key: &K,
    value: Option<V>,
) -> Result<(), OutOfMemory>
    ensures applied { OnOk result (IsApplied K.cmp ((key.now, change_to value) ∷ []) entries.old entries.new) }
    ensures rise { KeysRise K.cmp entries.new }
{
    match value {
        Some(value) => entries.set(key, value),
        None => {
            entries.remove(key);
            Ok(())
        }
    }
}

// Applies a delta, key by key.
fn apply_all<K: Ord + Kept + Drop, V: Drop>(
    entries: &mut Owned<K, V>,
    delta: Delta<K, V>,
) -> Result<(), OutOfMemory>
    ensures { OnOk result (IsApplied K.cmp delta entries.old entries.new) }
{
    for (key, change) in delta.into_items() {
        apply(entries, &key, value_put(change))?;
    }
    Ok(())
}

// How many values are put.
fn count_puts<K, V>(changes: &[(K, Change<V>)]) -> u64
    ensures { result ≡ count_by (λ change. is_put change.1) changes.now }
{
    changes.iter().filter(|change| is_put(&change.1)).count() as u64
}

// Whether a change puts a value.
fn is_put<V>(change: &Change<V>) -> bool
    ensures { result ≡ is_put change.now }
{
    match change {
        Change::Put(_) => true,
        Change::Gone => false,
    }
}
