use nv_base::{Items, Kept, ObjId, OutOfMemory};
use std::alloc::Global;
use std::cmp::Ordering;

/// What a table keeps.
pub trait Record: Drop + Sized {
    ghost use Rattle.std.specs.Prelude.{◌≡◌, ◌<◌, ℕ, List, length, IfOk, slice_get};
    ghost use Rattle.nv_base.specs.declared.object.ObjId.{ObjId};
    ghost use Rattle.nv_table.specs.Table.{order_at};

    /// What a record is found by, beside its number.
    type Tag: Ord + Kept + Drop;

    ghost number: { Self → ObjId };

    ghost tags: { Self → List Self.Tag };

    ghost weight: { Self → ℕ × ℕ };

    /// Its number. No two records of a table have one.
    fn number(&self) -> ObjId
        ensures { result ≡ number self.now };

    /// Its tags. One may be there twice, and other records may have it too. Where memory runs out the answer is
    /// `OutOfMemory`.
    fn tags(&self, alloc: Global) -> Result<Items<Self::Tag>, OutOfMemory>
        ensures { IfOk result (λ list. list ≡ tags self.now) };

    /// How many tags it has.
    fn tag_count(&self) -> usize
        ensures { result ≡ length (tags self.now) };

    /// How the tag at a place compares with another one.
    fn compare_tag(&self, place: usize, tag: &Self::Tag) -> Ordering
        requires { place < length (tags self.now) }
        ensures { result ≡ order_at Self.Tag.cmp (slice_get (tags self.now) place) tag.now };

    /// Two amounts that a table adds up.
    fn weight(&self) -> (u64, u64)
        ensures { result ≡ weight self.now };
}
