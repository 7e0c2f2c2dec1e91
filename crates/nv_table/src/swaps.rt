//! Records put in place of others that have one tag more, or one less, so that only the mark of that tag is moved.
ghost use Rattle.std.specs.Prelude.{◌≡◌, Some, not, true, false, IfOk, IfErr};
ghost use Rattle.nv_table.specs.Table.{NumbersRise, record_of, with_exchanged};
ghost use Rattle.nv_table.specs.Swapped.{differs_from, fits, with_swapped, swapped_out};

use crate::marks::move_mark;
use crate::probes::Own;
use crate::{Lean, Listing, Table};
use nv_base::OutOfMemory;
use std::alloc::Global;

impl<R: Listing> Table<R> {
    /// A record, with room for the tag that it has more than the one of its number, where they differ by one tag; else the record
    /// alone. At `OutOfMemory` it is gone.
    pub fn lean(&self, alloc: Global, record: R) -> Result<Result<Lean<R>, R>, OutOfMemory>
        ensures lean { IfOk result (λ left. IfOk left (λ lean. lean.0 ≡ «record»)) }
        ensures fits { IfOk result (λ left. IfOk left (λ lean. fits R.number R.is_longer lean self.now ≡ true)) }
        ensures alone { IfOk result (λ left. IfErr left (λ alone. alone ≡ «record»)) }
    {
        let Some(held) = self.get(record.number()) else {
            return Ok(Err(record));
        };
        let place = record.first_difference(held);
        if record.is_longer(held, place) {
            return Ok(Ok(Lean::longer(alloc, record, place)?));
        }
        if held.is_longer(&record, place) {
            return Ok(Ok(Lean::shorter(record, place)));
        }
        Ok(Err(record))
    }

    /// Puts a record in place of the one of its number, where it differs from that one by its one tag, and answers that one, which
    /// swaps back. Where it does not, nothing changes. It takes no memory.
    pub fn swap(&mut self, lean: Lean<R>) -> Option<Lean<R>>
        ensures records { self.new ≡ with_swapped R.number R.is_longer lean self.old }
        ensures old { result ≡ swapped_out R.is_longer lean (record_of R.number (R.number lean.0) self.old) }
        ensures rise { NumbersRise R.number self.old }
    {
        let fits = match self.get(lean.record.number()) {
            Some(held) => lean.differs(held),
            None => false,
        };
        if fits {
            Some(self.swap_fitting(lean))
        } else {
            None
        }
    }

    /// Puts a record in place of the one of its number, from which it differs by its one tag, and answers that one, which swaps back.
    /// It compares no tags, and takes no memory.
    pub fn swap_fitting(&mut self, lean: Lean<R>) -> Lean<R>
        requires { fits R.number R.is_longer lean self.old ≡ true }
        ensures records { self.new ≡ with_swapped R.number R.is_longer lean self.old }
        ensures old { Some result ≡ swapped_out R.is_longer lean (record_of R.number (R.number lean.0) self.old) }
        ensures rise { NumbersRise R.number self.old }
    {
        if lean.is_longer {
            self.lengthen(lean)
        } else {
            self.shorten(lean)
        }
    }

    // Puts in a record that has one tag more than the one of its number.
    fn lengthen(&mut self, lean: Lean<R>) -> Lean<R>
        requires longer { lean.2 ≡ true }
        requires fits { fits R.number R.is_longer lean self.old ≡ true }
        ensures records { self.new ≡ with_exchanged R.number lean.0 self.old }
        ensures old { record_of R.number (R.number lean.0) self.old ≡ Some result.0 }
        ensures place { result.1 ≡ lean.1 }
        ensures shorter { result.2 ≡ false }
        ensures rise { NumbersRise R.number self.old }
    {
        let Lean {
            record,
            place,
            mut marks,
            ..
        } = lean;
        let number = record.number();
        let (first, second) = record.weight();
        move_mark(&Own { of: &record, place }, &mut marks, &mut self.index);
        let held = self.records.exchange(&number, record);
        let (held_first, held_second) = held.weight();
        self.sums.0 = self.sums.0 - held_first as u128 + first as u128;
        self.sums.1 = self.sums.1 - held_second as u128 + second as u128;
        Lean {
            record: held,
            place,
            is_longer: false,
            marks,
        }
    }

    // Puts in a record that has one tag less than the one of its number.
    fn shorten(&mut self, lean: Lean<R>) -> Lean<R>
        requires shorter { lean.2 ≡ false }
        requires fits { fits R.number R.is_longer lean self.old ≡ true }
        ensures records { self.new ≡ with_exchanged R.number lean.0 self.old }
        ensures old { record_of R.number (R.number lean.0) self.old ≡ Some result.0 }
        ensures place { result.1 ≡ lean.1 }
        ensures longer { result.2 ≡ true }
        ensures rise { NumbersRise R.number self.old }
    {
        let Lean {
            record,
            place,
            mut marks,
            ..
        } = lean;
        let number = record.number();
        let (first, second) = record.weight();
        let held = self.records.exchange(&number, record);
        move_mark(&Own { of: &held, place }, &mut self.index, &mut marks);
        let (held_first, held_second) = held.weight();
        self.sums.0 = self.sums.0 - held_first as u128 + first as u128;
        self.sums.1 = self.sums.1 - held_second as u128 + second as u128;
        Lean {
            record: held,
            place,
            is_longer: true,
            marks,
        }
    }
}
