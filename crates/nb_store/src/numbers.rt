//! Numbers of objects in a list.
ghost use Rattle.std.specs.Prelude.{◌≡◌, ◌<◌, ◌≤◌, ◌+◌, ◌^◌, true, false, [], ◌∷◌, ◌++◌, length, take, drop, OnOk, OnErr, IfOk, IfSome};
ghost use Rattle.std.specs.List.{position};
ghost use Rattle.nb_model.specs.Belongs.{is_among};
ghost use Rattle.nb_model.specs.Effect.{with_number, without};
ghost use Rattle.nb_model.specs.Network.{same};
ghost use Rattle.nb_store.specs.inner.Only.{IsOnly};

use nb_records::Numbers;
use nv_base::{Items, ObjId, OutOfMemory};
use std::alloc::Global;

// How many numbers of a list are looked at before it is asked whether one of them was found.
const BLOCK: usize = 64;

/// Tells whether the number is one of these (not from OVN).
pub fn is_among(number: ObjId, numbers: &[ObjId]) -> bool
    ensures { result ≡ is_among number numbers.now }
{
    before_block(number, numbers) < numbers.len()
}

/// Puts a number last, where it is not there (not from OVN). After `OutOfMemory` the list is as before.
pub fn add_number(numbers: &mut Items<ObjId>, number: ObjId) -> Result<(), OutOfMemory>
    ensures ok { OnOk result (numbers.new ≡ with_number number numbers.old) }
    ensures err { OnErr result (numbers.new ≡ numbers.old) }
{
    if is_among(number, numbers.as_slice()) {
        return Ok(());
    }
    numbers.push(number)
}

/// The numbers with one more, last.
pub(crate) fn with_last(
    alloc: Global,
    numbers: &[ObjId],
    number: ObjId,
) -> Result<Items<ObjId>, OutOfMemory>
    ensures { IfOk result (λ longer. longer ≡ numbers.now ++ number ∷ []) }
{
    let mut longer = Vec::with_capacity(alloc, numbers.len() + 1)?;
    longer.extend_from_slice(numbers)?;
    longer.push(number)?;
    Ok(Items::from_items(longer))
}

/// The numbers but one, in their order, and the place of that one, where it is there once.
pub(crate) fn without_number(
    alloc: Global,
    numbers: &[ObjId],
    number: ObjId,
) -> Result<(Items<ObjId>, Option<usize>), OutOfMemory>
    ensures left { IfOk result (λ left. left.0 ≡ without (same number) numbers.now) }
    ensures only { IfOk result (λ left. IfSome left.1 (λ at. IsOnly number numbers.now at)) }
    ensures within { IfOk result (λ left. IfSome left.1 (λ at. at < length numbers.now)) }
{
    match only_place(number, numbers) {
        Some(at) => Ok((without_place(alloc, numbers, at)?, Some(at))),
        None => Ok((others(alloc, numbers, number)?, None)),
    }
}

/// The same of numbers in blocks. What is left shares the blocks.
pub(crate) fn without_shared(
    alloc: Global,
    numbers: &Numbers,
    number: ObjId,
) -> Result<(Numbers, Option<usize>), OutOfMemory>
    ensures left { IfOk result (λ left. left.0 ≡ without (same number) numbers.now) }
    ensures only { IfOk result (λ left. IfSome left.1 (λ at. IsOnly number numbers.now at)) }
    ensures within { IfOk result (λ left. IfSome left.1 (λ at. at < length numbers.now)) }
    ensures small { IfOk result (λ left. IfSome left.1 (λ at. at < 2 ^ 63)) }
{
    match only_shared(number, numbers) {
        Some(at) => Ok((numbers.without_place(alloc, at)?, Some(at))),
        None => Ok((others_shared(alloc, numbers, number)?, None)),
    }
}

// The place of a number in blocks, where it is there once.
fn only_shared(number: ObjId, numbers: &Numbers) -> Option<usize>
    ensures only { IfSome result (λ at. IsOnly number numbers.now at) }
    ensures within { IfSome result (λ at. at < length numbers.now) }
    ensures small { IfSome result (λ at. at < 2 ^ 63) }
{
    // So many a list may have that the place of one is below the greatest number.
    let _ = numbers.len();
    let at = numbers.place_of(number)?;
    if is_later(number, numbers, at) {
        return None;
    }
    Some(at)
}

// Whether a number stands after a place.
fn is_later(number: ObjId, numbers: &Numbers, at: usize) -> bool
    ensures { result ≡ is_among number (drop (at + 1) numbers.now) }
{
    at < numbers.len() && numbers.has_from(number, at + 1)
}

// The place of a number, where it is there once.
fn only_place(number: ObjId, numbers: &[ObjId]) -> Option<usize>
    ensures only { IfSome result (λ at. IsOnly number numbers.now at) }
    ensures within { IfSome result (λ at. at < length numbers.now) }
{
    let at = first_place(number, numbers)?;
    if is_among(number, &numbers[at + 1..]) {
        return None;
    }
    Some(at)
}

// The first place of a number: its block is found by blocks, and its place from there on one by one.
fn first_place(number: ObjId, numbers: &[ObjId]) -> Option<usize>
    ensures place { result ≡ position (same number) numbers.now }
    ensures within { IfSome result (λ at. at < length numbers.now) }
{
    let start = before_block(number, numbers);
    let at = near_place(number, &numbers[start..])?;
    Some(start + at)
}

// The first place of a number that stands near the front.
fn near_place(number: ObjId, numbers: &[ObjId]) -> Option<usize>
    ensures place { result ≡ position (same number) numbers.now }
    ensures within { IfSome result (λ at. at < length numbers.now) }
{
    numbers.iter().position(|other| number == *other)
}

// How many numbers stand before the first block that has this one: all of them, where none has it.
fn before_block(number: ObjId, numbers: &[ObjId]) -> usize
    ensures before { is_among number (take result numbers.now) ≡ false }
    ensures there { result < length numbers.now → is_among number numbers.now ≡ true }
    ensures within { result ≤ length numbers.now }
{
    let mut start = 0;
    while numbers.len() - start >= BLOCK {
        if is_in_block(number, &numbers[start..start + BLOCK]) {
            return start;
        }
        start += BLOCK;
    }
    if is_in_block(number, &numbers[start..]) {
        start
    } else {
        numbers.len()
    }
}

// Whether the number is in a block. It looks at all of the block, without a branch, so that several numbers are compared at once.
#[inline(always)]
fn is_in_block(number: ObjId, block: &[ObjId]) -> bool
    ensures { result ≡ is_among number block.now }
{
    let mut is_found = false;
    for other in block {
        is_found |= number.0 == other.0;
    }
    is_found
}

// The numbers but the one at a place.
fn without_place(alloc: Global, numbers: &[ObjId], at: usize) -> Result<Items<ObjId>, OutOfMemory>
    requires { at < length numbers.now }
    ensures { IfOk result (λ left. left ≡ take at numbers.now ++ drop (at + 1) numbers.now) }
{
    let mut left = Vec::with_capacity(alloc, numbers.len())?;
    left.extend_from_slice(&numbers[..at])?;
    left.extend_from_slice(&numbers[at + 1..])?;
    Ok(Items::from_items(left))
}

// The numbers but one, in their order.
fn others(alloc: Global, numbers: &[ObjId], number: ObjId) -> Result<Items<ObjId>, OutOfMemory>
    ensures { IfOk result (λ left. left ≡ without (same number) numbers.now) }
{
    let mut left = Items::new(alloc);
    for other in numbers {
        if number.0 != other.0 {
            left.push(*other)?;
        }
    }
    Ok(left)
}

// The same of numbers in blocks.
fn others_shared(alloc: Global, numbers: &Numbers, number: ObjId) -> Result<Numbers, OutOfMemory>
    ensures { IfOk result (λ left. left ≡ without (same number) numbers.now) }
{
    let mut left = Items::new(alloc);
    for at in 0..numbers.len() {
        let other = numbers.number_at(at);
        if number.0 != other.0 {
            left.push(other)?;
        }
    }
    Numbers::from_slice(alloc, left.as_slice())
}
