ghost use Rattle.std.specs.Prelude.{◌≡◌, ◌+◌, ◌<◌, ◌^◌, [], true, OnOk, IfOk};
ghost use Rattle.nb_model.specs.Network.{next_number};
ghost use Rattle.nb_store.specs.Undo.{restored, swapped, removed, undone, back_steps};
ghost use Rattle.nb_store.specs.inner.Held.{is_fitting};

use crate::records::Records;
use crate::step::{LeanObject, Object, Place, Step};
use crate::undo::Undo;
use nv_base::{ObjId, OutOfMemory};
use std::alloc::Global;

/// The tables in the midst of an edit, and what undoes it so far. Where a change finds no memory, nothing has changed. Not from OVN.
#[derive(Drop)]
pub struct Work {
    /// The tables as they are now. Only the calls below change them, and each notes what undoes it.
    pub records: Records,
    steps: Vec<Step>,
}

impl Work {
    /// An edit of these tables begins, with nothing to undo. It takes no memory. Not from OVN.
    pub fn new(alloc: Global, records: Records) -> Self
        ensures records { result.records ≡ «records» }
        ensures steps { result.steps.items ≡ [] }
    {
        Work {
            records,
            steps: Vec::new(alloc),
        }
    }

    /// Puts an object in place of the one of its kind and number, or in where there is none.
    pub(crate) fn store(&mut self, object: Object) -> Result<(), OutOfMemory>
        ensures ok { OnOk result (self.new.records ≡ restored object self.old.records) }
        ensures back { back_steps self.new.steps.items self.new.records ≡ back_steps self.old.steps.items self.old.records }
    {
        let place = object.place();
        match self.records.exchange(object) {
            Some(old) => self.note(Step::Restore(old)),
            None => self.note(Step::Remove(place)),
        }
    }

    /// Puts a record in place of the one of its number, from which it differs by its one number. It compares no lists.
    pub(crate) fn swap(&mut self, lean: LeanObject) -> Result<(), OutOfMemory>
        requires { is_fitting lean self.old.records ≡ true }
        ensures ok { OnOk result (self.new.records ≡ swapped lean self.old.records) }
        ensures back { back_steps self.new.steps.items self.new.records ≡ back_steps self.old.steps.items self.old.records }
    {
        let number = self.records.differing(&lean).unwrap();
        let old = self.records.swap_fitting(lean);
        self.note(Step::Swap(old, number))
    }

    /// Removes the object of a kind and number. Where there is none, nothing changes. After `OutOfMemory` nothing has changed. Not from
    /// OVN.
    pub fn remove(&mut self, place: Place) -> Result<(), OutOfMemory>
        ensures ok { OnOk result (self.new.records ≡ removed place self.old.records) }
        ensures back { back_steps self.new.steps.items self.new.records ≡ back_steps self.old.steps.items self.old.records }
    {
        match self.records.take(place) {
            Some(old) => self.note(Step::Restore(old)),
            None => Ok(()),
        }
    }

    /// The number of a new object, which is then taken. After `OutOfMemory` none is. Not from OVN.
    pub fn take_number(&mut self) -> Result<ObjId, OutOfMemory>
        requires { self.old.records.next + 1 < 2 ^ 32 }
        ensures number { IfOk result (λ number. number ≡ next_number self.old.records) }
        ensures ok { OnOk result (self.new.records ≡ record self.old.records { next = self.old.records.next + 1 }) }
        ensures back { back_steps self.new.steps.items self.new.records ≡ back_steps self.old.steps.items self.old.records }
    {
        let number = self.records.take_number();
        self.note(Step::Next(number.0))?;
        Ok(number)
    }

    /// The tables, and what undoes all that was done to them. Not from OVN.
    pub fn finish(self) -> (Records, Undo)
        ensures records { result.0 ≡ self.records }
        ensures undo { result.1.steps.items ≡ self.steps.items }
    {
        (self.records, Undo { steps: self.steps })
    }

    /// The tables as they were when the edit began. It takes no memory. Not from OVN.
    pub fn abandon(self) -> Records
        ensures { result ≡ back_steps self.steps.items self.records }
    {
        let Work { mut records, steps } = self;
        records.undo_all(steps);
        records
    }

    // Notes what undoes the change that was made last. Where there is no memory for it, that change is undone.
    fn note(&mut self, step: Step) -> Result<(), OutOfMemory>
        ensures ok { OnOk result (self.new.records ≡ self.old.records) }
        ensures back { back_steps self.new.steps.items self.new.records ≡ back_steps self.old.steps.items (undone step self.old.records) }
    {
        match self.steps.push(step) {
            Ok(()) => Ok(()),
            Err(failed) => {
                self.records.undo_step(failed.value);
                Err(OutOfMemory)
            }
        }
    }
}
