//! Where numbers stand in a list, and whether two lists have the same.
ghost use Rattle.std.specs.Prelude.{◌≡◌, ◌<◌, ◌≤◌, ◌+◌, length, take, drop, IfSome};
ghost use Rattle.std.specs.Cmp.Lexicographic.{pointwise};
ghost use Rattle.std.specs.List.{list_any, position};
ghost use Rattle.nb_records.specs.Longer.{same_number};

use crate::Numbers;
use nv_base::{Kept, ObjId, OutOfMemory};
use std::alloc::Global;

impl Numbers {
    /// Whether a number is among those from a place on.
    pub fn has_from(&self, number: ObjId, mut at: usize) -> bool
        ensures { result ≡ list_any (same_number number) (drop at self.now) }
    {
        while at < self.len() {
            let run = self.run(at);
            if is_in_run(number, run) {
                return true;
            }
            at += run.len();
        }
        false
    }

    /// The first place of a number.
    pub fn place_of(&self, number: ObjId) -> Option<usize>
        ensures place { result ≡ position (same_number number) self.now }
        ensures within { IfSome result (λ at. at < length self.now) }
    {
        let mut at = 0;
        while at < self.len() {
            let run = self.run(at);
            if is_in_run(number, run) {
                let near = near_place(number, run)?;
                return Some(at + near);
            }
            at += run.len();
        }
        None
    }

    /// Whether so many numbers from a place on are those of another list from a place on.
    pub fn agrees(&self, at: usize, other: &Self, place: usize, count: usize) -> bool
        requires own { at + count ≤ length self.now }
        requires others { place + count ≤ length other.now }
        ensures { result ≡ pointwise same_number (take count (drop at self.now)) (take count (drop place other.now)) }
    {
        let _ = &self.blocks;
        let _ = &other.blocks;
        let mut done = 0;
        while done < count {
            let own = self.run(at + done);
            let others = other.run(place + done);
            let size = own.len().min(others.len()).min(count - done);
            if !is_same_run(&own[..size], &others[..size]) {
                return false;
            }
            done += size;
        }
        true
    }
}

impl PartialEq for Numbers {
    ghost use Rattle.std.specs.Cmp.{partial_equiv_from_equiv, nat_eq_equiv, on_per};
    ghost use Rattle.std.specs.Cmp.Lexicographic.{pointwise, lists_per};
    ghost use Rattle.nv_base.specs.declared.object.ObjId.{ObjId};
    ghost use Rattle.std.specs.Prelude.{◌==◌};

    ghost eq = { pointwise (λ (a b : ObjId). a.0 == b.0) };

    ghost laws = { lists_per (on_per (λ (n : ObjId). n.0) (partial_equiv_from_equiv nat_eq_equiv)) };

    fn eq(&self, other: &Self) -> bool {
        self.len() == other.len() && self.agrees(0, other, 0, self.len())
    }
}

impl Eq for Numbers {
    ghost use Rattle.std.specs.Cmp.{nat_eq_equiv, on_equiv};
    ghost use Rattle.std.specs.Cmp.Lexicographic.{lists_equiv};
    ghost use Rattle.nv_base.specs.declared.object.ObjId.{ObjId};

    ghost laws = { lists_equiv (on_equiv (λ (n : ObjId). n.0) nat_eq_equiv) };
}

impl Kept for Numbers {
    ghost use Rattle.nv_base.specs.inner.Exact as tells;

    ghost exact = { tells.list _ tells.object };

    fn copy(&self, alloc: Global) -> Result<Self, OutOfMemory> {
        self.shared(alloc)
    }
}

// Whether the number is in a run. It looks at all of it, without a branch, so that several numbers are compared at once.
#[inline(always)]
fn is_in_run(number: ObjId, run: &[ObjId]) -> bool
    ensures { result ≡ list_any (same_number number) run.now }
{
    let mut is_found = false;
    for other in run {
        is_found |= number.0 == other.0;
    }
    is_found
}

// The first place of a number in a run.
fn near_place(number: ObjId, run: &[ObjId]) -> Option<usize>
    ensures { result ≡ position (same_number number) run.now }
{
    run.iter().position(|other| number == *other)
}

// Whether two runs have the same numbers.
fn is_same_run(own: &[ObjId], others: &[ObjId]) -> bool
    ensures { result ≡ pointwise same_number own.now others.now }
{
    own == others
}
