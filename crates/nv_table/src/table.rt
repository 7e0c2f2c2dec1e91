ghost use Rattle.std.specs.Prelude.{◌≡◌, ◌&&◌, [], None, length, sum_by, find, IsTrue, IsSome, ◌↔◌};
ghost use Rattle.std.specs.Option.{option_copied};

use crate::marks::{Marks, move_marks};
use crate::probes::Past;
use crate::{Loose, Record};
use nv_base::ObjId;
use nv_map::{Map, Probe};
use std::marker::Model;

/// Records by their numbers, and by their tags. A clause sees the list of the records, whose numbers rise, so that no two have one.
#[derive(Drop)]
pub struct Table<R: Record> {
    pub(crate) records: Map<ObjId, R>,
    pub(crate) index: Marks<R>,
    count: u64,
    pub(crate) sums: (u128, u128),
}

impl<R: Record> Model for Table<R> {
    ghost use Rattle.std.specs.Prelude.{List};
    ghost use Rattle.nv_table.specs.inner.Index.{IsIndexed, IsCounted};
    ghost use Rattle.nv_table.specs.Table.{unkeyed};

    ghost Value = { List R };

    ghost view = { λ table. unkeyed table.records };

    ghost invariant = { λ table. IsIndexed R.number R.tags R.Tag.cmp table.records table.index × IsCounted R.number R.weight (unkeyed table.records) table.count table.sums };
}

impl<R: Record> Table<R> {
    ghost use Rattle.nv_table.specs.Table.{NumbersRise, is_after, has_tag, record_of, record_after, with_record, without_number, with_exchanged};

    /// The empty table. It takes no memory.
    pub fn new() -> Self
        ensures { result ≡ [] }
    {
        Table {
            records: Map::new(),
            index: Map::new(),
            count: 0,
            sums: (0, 0),
        }
    }

    /// The record of a number.
    pub fn get(&self, number: ObjId) -> Option<&R>
        ensures record { option_copied result ≡ record_of R.number number self.now }
        ensures rise { NumbersRise R.number self.now }
    {
        self.records.get(&number)
    }

    /// The record of the least number above the one given, or the first record where none is given.
    pub fn after(&self, number: Option<ObjId>) -> Option<&R>
        ensures record { option_copied result ≡ record_after R.number number self.now }
        ensures rise { NumbersRise R.number self.now }
    {
        match self.records.first_after(number.as_ref()) {
            None => None,
            Some((_, record)) => Some(record),
        }
    }

    /// Of the records that have the tag, that of the least number above the one given, or the first of them where none is given.
    pub fn tagged<P: Probe<R::Tag>>(&self, tag: &P, after: Option<ObjId>) -> Option<&R>
        ensures record { option_copied result ≡ find (λ r. is_after after (R.number r) && has_tag R.tags (P.order tag.now) r) self.now }
        ensures rise { NumbersRise R.number self.now }
    {
        let Some((mark, _)) = self.index.first_above(&Past { tag, after }) else {
            return None;
        };
        if tag.compare(&mark.0).is_eq() {
            self.records.get(&mark.1)
        } else {
            None
        }
    }

    /// How many records there are.
    pub fn count(&self) -> u64
        ensures { result ≡ length self.now }
    {
        self.count
    }

    /// The sums of the two weights of all records.
    pub fn weights(&self) -> (u128, u128)
        ensures first { result.0 ≡ sum_by (λ r. (R.weight r).0) self.now }
        ensures second { result.1 ≡ sum_by (λ r. (R.weight r).1) self.now }
    {
        self.sums
    }

    /// Puts a record in at its place, by number (not from OVN). None of its number is there. It takes no memory: the
    /// record brings its room.
    pub fn put(&mut self, loose: Loose<R>)
        requires { record_of R.number (R.number loose) self.old ≡ None }
        ensures records { self.new ≡ with_record R.number loose self.old }
        ensures rise { NumbersRise R.number self.old }
    {
        let Loose { entry, mut marks } = loose;
        let record = entry.value();
        let (first, second) = record.weight();
        self.count += 1;
        self.sums.0 += first as u128;
        self.sums.1 += second as u128;
        move_marks(record, &mut marks, &mut self.index);
        self.records.put(entry);
    }

    /// Takes the record of a number out, with its room. Where there is none, nothing changes.
    pub fn take(&mut self, number: ObjId) -> Option<Loose<R>>
        ensures record { result ≡ record_of R.number number self.old }
        ensures records { self.new ≡ without_number R.number number self.old }
        ensures rise { NumbersRise R.number self.old }
    {
        let Some(entry) = self.records.take(&number) else {
            return None;
        };
        let record = entry.value();
        let (first, second) = record.weight();
        self.count -= 1;
        self.sums.0 -= first as u128;
        self.sums.1 -= second as u128;
        let mut marks = Map::new();
        move_marks(record, &mut self.index, &mut marks);
        Some(Loose { entry, marks })
    }

    /// Removes the record of a number, and tells whether it was there.
    pub fn remove(&mut self, number: ObjId) -> bool
        ensures found { IsTrue result ↔ IsSome (record_of R.number number self.old) }
        ensures records { self.new ≡ without_number R.number number self.old }
        ensures rise { NumbersRise R.number self.old }
    {
        self.take(number).is_some()
    }

    /// Puts a record in place of the one of its number, and answers that one. Where there is none, the record is put in.
    pub fn exchange(&mut self, loose: Loose<R>) -> Option<Loose<R>>
        ensures record { result ≡ record_of R.number (R.number loose) self.old }
        ensures records { self.new ≡ with_exchanged R.number loose self.old }
        ensures rise { NumbersRise R.number self.old }
    {
        let old = self.take(loose.record().number());
        self.put(loose);
        old
    }
}
