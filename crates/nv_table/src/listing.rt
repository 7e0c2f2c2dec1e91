use crate::Record;
use nv_base::OutOfMemory;
use std::alloc::Global;

/// A record whose list of tags grows and shrinks by one.
pub trait Listing: Record {
    ghost use Rattle.std.specs.Prelude.{◌≡◌, ◌<◌, ℕ, Bool, true, Some, length, IfOk, slice_get};
    ghost use Rattle.nv_table.specs.Swapped.{IsLonger};

    ghost is_longer: { Self → Self → ℕ → Bool };

    /// Whether it has the tags of another record and one more, which the other has not, at this place.
    fn is_longer(&self, other: &Self, place: usize) -> bool
        ensures { result ≡ is_longer self.now other.now place };

    /// The first place at which its tags and those of another record may differ. No clause speaks of it.
    fn first_difference(&self, other: &Self) -> usize;

    /// Its tag at a place. Where memory runs out the answer is `OutOfMemory`.
    fn tag(&self, alloc: Global, place: usize) -> Result<Self::Tag, OutOfMemory>
        requires { place < length (Self.tags self.now) }
        ensures { IfOk result (λ tag. slice_get (Self.tags self.now) place ≡ Some tag) };

    /// A record that is longer has that tag more.
    ghost longer: { (a b : Self) (place : ℕ) → is_longer a b place ≡ true → IsLonger Self.tags Self.Tag.cmp a b place };
}
