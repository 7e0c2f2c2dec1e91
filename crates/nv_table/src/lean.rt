ghost use Rattle.std.specs.Prelude.{◌≡◌, ◌<◌, true, false, length, IfOk};
ghost use Rattle.nv_table.specs.Swapped.{differs};

use crate::marks::Marks;
use crate::{Listing, Loose, Record};
use nv_base::OutOfMemory;
use nv_map::{Entry, Map};
use std::alloc::Global;
use std::marker::Model;

/// A record that has one tag more than the one whose place it takes, with the room of that tag, or one less. A clause sees the record,
/// the place of the tag, and whether it is the one that has it.
#[derive(Drop)]
pub struct Lean<R: Record> {
    pub(crate) record: R,
    pub(crate) place: usize,
    pub(crate) is_longer: bool,
    // The mark of the tag, where it is the one that has it.
    pub(crate) marks: Marks<R>,
}

impl<R: Record> Model for Lean<R> {
    ghost use Rattle.nv_table.specs.Swapped.{Swap};
    ghost use Rattle.nv_table.specs.inner.Index.{IsLean};

    ghost Value = { Swap R };

    ghost view = { λ lean. (lean.record, lean.place, lean.is_longer) };

    ghost invariant = { λ lean. IsLean R.number R.tags R.Tag.cmp lean.record lean.place lean.is_longer lean.marks };
}

impl<R: Listing> Lean<R> {
    /// A record that has the tag at this place more. At `OutOfMemory` it is gone.
    pub fn longer(alloc: Global, record: R, place: usize) -> Result<Self, OutOfMemory>
        requires { place < length (R.tags «record») }
        ensures { IfOk result (λ lean. lean ≡ («record», place, true)) }
    {
        let tag = record.tag(alloc, place)?;
        let mut marks = Map::new();
        marks.put(Entry::new(alloc, (tag, record.number()), ())?);
        Ok(Lean {
            record,
            place,
            is_longer: true,
            marks,
        })
    }

    /// A record that has the tag at this place of the other one less.
    pub fn shorter(record: R, place: usize) -> Self
        ensures { result ≡ («record», place, false) }
    {
        Lean {
            record,
            place,
            is_longer: false,
            marks: Map::new(),
        }
    }

    /// The record.
    pub fn record(&self) -> &R
        ensures { result.now ≡ self.now.0 }
    {
        &self.record
    }

    /// The place of the tag.
    pub fn place(&self) -> usize
        ensures { result ≡ self.now.1 }
    {
        self.place
    }

    /// Whether it is the one that has the tag.
    pub fn is_longer(&self) -> bool
        ensures { result ≡ self.now.2 }
    {
        self.is_longer
    }

    // Whether this is how it differs from another record.
    pub(crate) fn differs(&self, other: &R) -> bool
        ensures { result ≡ differs R.is_longer self.now other.now }
    {
        if self.is_longer {
            self.record.is_longer(other, self.place)
        } else {
            other.is_longer(&self.record, self.place)
        }
    }
}
