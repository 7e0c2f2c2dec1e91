//! Buckets that nothing else shares.
ghost use Rattle.std.specs.Prelude.{◌≡◌, ℕ, List, None, Option, Some, IfOk, IsTrue};
ghost use Rattle.std.specs.BTreeMap.{get};
ghost use Rattle.std.specs.Cmp.Lexicographic.{slice_cmp};
ghost use Rattle.std.specs.Option.{option_copied};
ghost use Rattle.std.specs.Ordering.{nat_cmp};
ghost use Rattle.sb_rows.specs.inner.Asks.{bucket_of, name_of, numbers_of};
ghost use Rattle.sb_rows.specs.inner.Own.{IsBucketOf, key_of_numbers, name_number, own_bucket, own_key_cmp};

use crate::asks::{Asks, FIRST_OWN, Numbers};
use nv_base::{Kept, Name, OutOfMemory};
use std::alloc::Global;
use std::collections::BTreeMap;

// The number of a name, a shared bucket, and the numbers that are asked.
type Key = ((u64, u64), (u64, (u64, u64)));

// Buckets of a name, or of none, and of numbers, that are told by these themselves, and by the bucket that these would share, which
// tells apart what fields they are of.
#[derive(Drop)]
pub(crate) struct Own {
    // The numbers of the names, from 1.
    names: BTreeMap<Name, u64>,
    buckets: BTreeMap<Key, u64>,
}

// What tells a bucket.
#[inline]
fn key_of_numbers(name: u64, shared: u64, numbers: Numbers) -> Key
    ensures { result ≡ key_of_numbers name shared numbers }
{
    let (first, second, third) = numbers;
    ((name, shared), (first, (second, third)))
}

impl Own {
    // Nothing has one yet.
    pub(crate) fn new(alloc: Global) -> Own {
        Own {
            names: BTreeMap::new(alloc),
            buckets: BTreeMap::new(alloc),
        }
    }

    // Whether nothing has one.
    #[inline]
    pub(crate) fn is_empty(&self) -> bool
        ensures { IsTrue result → (name : Option (List ℕ)) (shared : ℕ) (numbers : ℕ × ℕ × ℕ) → own_bucket self.now name shared numbers ≡ None }
    {
        self.buckets.is_empty()
    }

    // How many buckets there are.
    pub(crate) fn len(&self) -> usize {
        self.buckets.len()
    }

    // That of a name, or of none, and of numbers, with the bucket that they would share, if they have one.
    pub(crate) fn bucket(&self, name: Option<&Name>, shared: u64, numbers: Numbers) -> Option<u64>
        ensures { result ≡ own_bucket self.now (option_copied name.entry) shared numbers }
    {
        let number = self.number(name)?;
        Some(*self.buckets.get(&key_of_numbers(number, shared, numbers))?)
    }

    // The number of a name, if it has one; that of none is 0.
    fn number(&self, name: Option<&Name>) -> Option<u64>
        ensures { result ≡ name_number self.now (option_copied name.entry) }
    {
        match name {
            Some(name) => Some(*self.names.get(name)?),
            None => Some(0),
        }
    }

    // The bucket of what is asked that it may share, or where that is full its own, which it gets where it has none. After `OutOfMemory` all
    // have theirs that had one.
    pub(crate) fn bucket_for(
        &mut self,
        alloc: Global,
        asks: Asks<'_>,
        shared: u64,
        is_full: bool,
    ) -> Result<u64, OutOfMemory>
        requires { shared ≡ bucket_of asks }
        ensures is { IfOk result (λ bucket. IsBucketOf self.new asks.entry bucket) }
        ensures kept { (name : Option (List ℕ)) (shared : ℕ) (numbers : ℕ × ℕ × ℕ) (bucket : ℕ) → own_bucket self.old name shared numbers ≡ Some bucket → own_bucket self.new name shared numbers ≡ Some bucket }
    {
        if is_full {
            self.give(alloc, asks, shared)
        } else {
            Ok(shared)
        }
    }

    // Its own.
    fn give(&mut self, alloc: Global, asks: Asks<'_>, shared: u64) -> Result<u64, OutOfMemory>
        ensures given { IfOk result (λ bucket. own_bucket self.new (name_of asks.entry.port) shared (numbers_of asks.entry) ≡ Some bucket) }
        ensures kept { (name : Option (List ℕ)) (shared : ℕ) (numbers : ℕ × ℕ × ℕ) (bucket : ℕ) → own_bucket self.old name shared numbers ≡ Some bucket → own_bucket self.new name shared numbers ≡ Some bucket }
    {
        let name = match asks.name() {
            Some(name) => number_of_name(alloc, &mut self.names, name)?,
            None => 0,
        };
        let key = key_of_numbers(name, shared, asks.numbers());
        bucket_of_key(&mut self.buckets, key)
    }
}

// The number of a name, which it gets where it has none.
fn number_of_name(
    alloc: Global,
    names: &mut BTreeMap<Name, u64>,
    name: &Name,
) -> Result<u64, OutOfMemory>
    ensures given { IfOk result (λ number. get (slice_cmp nat_cmp) names.new name.now ≡ Some number) }
    ensures kept { (other : List ℕ) (number : ℕ) → get (slice_cmp nat_cmp) names.old other ≡ Some number → get (slice_cmp nat_cmp) names.new other ≡ Some number }
{
    if let Some(number) = names.get(name) {
        return Ok(*number);
    }
    let number = (names.len() as u64).saturating_add(1);
    names.insert(name.copy(alloc)?, number)?;
    Ok(number)
}

// The bucket of a key, which it gets where it has none.
fn bucket_of_key(buckets: &mut BTreeMap<Key, u64>, key: Key) -> Result<u64, OutOfMemory>
    ensures given { IfOk result (λ bucket. get own_key_cmp buckets.new key ≡ Some bucket) }
    ensures kept { (other : (ℕ × ℕ) × (ℕ × (ℕ × ℕ))) (bucket : ℕ) → get own_key_cmp buckets.old other ≡ Some bucket → get own_key_cmp buckets.new other ≡ Some bucket }
{
    if let Some(bucket) = buckets.get(&key) {
        return Ok(*bucket);
    }
    let bucket = FIRST_OWN.saturating_add(buckets.len() as u64);
    buckets.insert(key, bucket)?;
    Ok(bucket)
}
