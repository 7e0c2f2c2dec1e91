ghost use Rattle.std.specs.Prelude.{◌≡◌, IfOk};

use crate::Record;
use crate::marks::{Marks, marks_of};
use nv_base::{ObjId, OutOfMemory};
use nv_map::Entry;
use std::alloc::Global;
use std::marker::Model;

/// A record with all the room that it takes in a table. A clause sees it as the record.
#[derive(Drop)]
pub struct Loose<R: Record> {
    pub(crate) entry: Entry<ObjId, R>,
    pub(crate) marks: Marks<R>,
}

impl<R: Record> Model for Loose<R> {
    ghost use Rattle.nv_table.specs.inner.Index.{IsLoose};

    ghost Value = { R };

    ghost view = { λ loose. loose.entry.1 };

    ghost invariant = { λ loose. IsLoose R.number R.tags R.Tag.cmp loose.entry loose.marks };
}

impl<R: Record> Loose<R> {
    /// A record, with room. At `OutOfMemory` it is gone.
    pub fn new(alloc: Global, record: R) -> Result<Self, OutOfMemory>
        ensures { IfOk result (λ loose. loose ≡ «record») }
    {
        let number = record.number();
        let marks = marks_of(alloc, &record)?;
        let entry = Entry::new(alloc, number, record)?;
        Ok(Loose { entry, marks })
    }

    /// The record.
    pub fn record(&self) -> &R
        ensures { result.now ≡ self.now }
    {
        self.entry.value()
    }

    /// The record, and the room is freed.
    pub fn into_record(self) -> R
        ensures { result ≡ self }
    {
        let (_, record) = self.entry.into_parts();
        record
    }
}
