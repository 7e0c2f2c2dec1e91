ghost use Rattle.std.specs.Prelude.{◌≡◌, [], length, IsTrue, ◌↔◌, IfOk, slice_get};
ghost use Rattle.std.specs.Option.{option_copied};
ghost use Rattle.sb_rows.specs.inner.Exact as tells;

use crate::stored::Stored;
use nv_base::{Kept, OutOfMemory};
use sb_model::Row;
use std::alloc::Global;
use std::marker::Model;

/// A list of rows. A clause sees it as the list of the rows.
#[derive(Drop)]
pub struct RowList {
    stored: Vec<Stored>,
}

impl Model for RowList {
    ghost use Rattle.std.specs.Prelude.{List};
    ghost use Rattle.sb_model.specs.declared.row.Row.{Row};
    ghost use Rattle.sb_model.specs.contracts.row.Row as row_of;
    ghost use Rattle.std.specs.Coded.{codes};

    ghost Value = { List Row };

    ghost coded = { Prim.hlevel (codes, row_of.the_row.coded) };

    ghost view = { λ r. r.stored.items };
}

impl RowList {
    /// No rows. It takes no memory.
    pub fn new(alloc: Global) -> Self
        ensures { result ≡ [] }
    {
        RowList {
            stored: Vec::new(alloc),
        }
    }

    /// How many rows there are.
    pub fn len(&self) -> usize
        ensures { result ≡ length self.now }
    {
        self.stored.len()
    }

    /// Whether there is no row.
    pub fn is_empty(&self) -> bool
        ensures { IsTrue result ↔ (self.now ≡ []) }
    {
        self.stored.is_empty()
    }

    /// The row at this place, from 0. None exactly where there are not so many.
    pub fn get(&self, at: usize) -> Option<&Row>
        ensures { option_copied result ≡ slice_get self.now at }
    {
        match self.stored.get(at) {
            Some(stored) => Some(stored.row()),
            None => None,
        }
    }

    // These rows, in their order.
    pub(crate) fn from_stored(stored: Vec<Stored>) -> Self
        ensures { result ≡ stored.items }
    {
        RowList { stored }
    }

    // The rows beside their keys, in their order.
    pub(crate) fn as_stored(&self) -> &[Stored]
        ensures { result.now ≡ self.now }
    {
        &self.stored
    }

    // The rows, in their order.
    pub(crate) fn into_stored(self) -> Vec<Stored>
        ensures { result.items ≡ self }
    {
        self.stored
    }
}

impl PartialEq for RowList {
    ghost use Rattle.std.specs.Cmp.Lexicographic.{pointwise, lists_per};
    ghost use Rattle.sb_model.specs.inner.Exact.{same_row};
    ghost use Rattle.sb_rows.specs.inner.Exact.{rows_per};

    ghost eq = { pointwise same_row };

    ghost laws = { lists_per rows_per };

    fn eq(&self, other: &Self) -> bool {
        self.stored == other.stored
    }
}

impl Eq for RowList {
    ghost use Rattle.std.specs.Cmp.Lexicographic.{lists_equiv};
    ghost use Rattle.sb_rows.specs.inner.Exact.{rows_equiv};

    ghost laws = { lists_equiv rows_equiv };
}

impl Kept for RowList {
    ghost exact = { tells.row_list };

    fn copy(&self, alloc: Global) -> Result<Self, OutOfMemory> {
        let mut copied = Vec::with_capacity(alloc, self.stored.len())?;
        for stored in &self.stored {
            copied.push(stored.copy()?)?;
        }
        Ok(RowList { stored: copied })
    }
}
