ghost use Rattle.std.specs.Prelude.{◌≡◌, [], ◌∷◌, ◌++◌, ◌↔◌, Contains, IfOk, IsSorted, IsTrue, OnOk, OnErr};
ghost use Rattle.sb_model.specs.declared.row.Row as row_of;
ghost use Rattle.sb_rows.specs.Row.{key_cmp, put_rows};

use crate::RowList;
use crate::by_text::{Rooms, put_in_place};
use crate::stored::Stored;
use nv_base::OutOfMemory;
use sb_model::Row;
use std::alloc::Global;
use std::marker::Model;

// For so many rows there is room from the first on: as many as most units have.
const FEW: usize = 8;

/// Rows that are to be put among others, in the order in which they came. A clause sees it as the list of the rows.
#[derive(Drop)]
pub struct NewRows {
    stored: Vec<Stored>,
}

impl Model for NewRows {
    ghost use Rattle.std.specs.Prelude.{List};
    ghost use Rattle.sb_model.specs.declared.row.Row.{Row};
    ghost use Rattle.sb_model.specs.contracts.row.Row as row_of;
    ghost use Rattle.std.specs.Coded.{codes};

    ghost Value = { List Row };

    ghost coded = { Prim.hlevel (codes, row_of.the_row.coded) };

    ghost view = { λ r. r.stored.items };
}

impl NewRows {
    /// No rows. It takes no memory.
    pub fn new(alloc: Global) -> Self
        ensures { result ≡ [] }
    {
        NewRows {
            stored: Vec::new(alloc),
        }
    }

    /// No rows, and room for so many.
    pub fn with_capacity(alloc: Global, count: usize) -> Result<Self, OutOfMemory>
        ensures { IfOk result (λ rows. rows ≡ []) }
    {
        Ok(NewRows {
            stored: Vec::with_capacity(alloc, count)?,
        })
    }

    /// Puts a row last. After `OutOfMemory` the rows are as before.
    pub fn push(&mut self, row: Row) -> Result<(), OutOfMemory>
        ensures ok { OnOk result (self.new ≡ self.old ++ row ∷ []) }
        ensures err { OnErr result (self.new ≡ self.old) }
    {
        let stored = Stored::new(*self.stored.allocator(), row)?;
        if self.stored.is_empty() && self.stored.reserve(FEW).is_err() {
            drop(stored);
            return Err(OutOfMemory);
        }
        self.stored.push(stored)?;
        Ok(())
    }

    /// Puts the rows of a list last, in their order. After `OutOfMemory` the rows are as before.
    pub fn append(&mut self, list: RowList) -> Result<(), OutOfMemory>
        ensures ok { OnOk result (self.new ≡ self.old ++ list) }
        ensures err { OnErr result (self.new ≡ self.old) }
    {
        let mut stored = list.into_stored();
        if stored.is_empty() {
            return Ok(());
        }
        self.stored.append(&mut stored)?;
        Ok(())
    }

    /// The rows in row order. Rows that agree in it stay in the order in which they came.
    pub fn into_list(self) -> Result<RowList, OutOfMemory>
        ensures { IfOk result (λ list. list ≡ put_rows [] self) }
    {
        let mut stored = self.stored;
        if stored.len() < 2 {
            return Ok(RowList::from_stored(stored));
        }
        stored.sort_by(|one, other| one.key_order(other))?;
        Ok(RowList::from_stored(in_row_order(stored)?))
    }

    /// The rows in the order of datapath, stage, falling priority and hint. Rows that agree in these stay in the order in which they came: it
    /// writes no text of a match (not from OVN).
    pub fn into_list_by_key(self) -> Result<RowList, OutOfMemory>
        ensures order { IfOk result (λ list. IsSorted key_cmp list) }
        ensures members { IfOk result (λ list. (r : row_of.Row) → Contains list r ↔ Contains self r) }
    {
        let mut stored = self.stored;
        stored.sort_by(|one, other| one.key_order(other))?;
        Ok(RowList::from_stored(stored))
    }

    // The rows, in their order.
    pub(crate) fn into_stored(self) -> Vec<Stored>
        ensures { result.items ≡ self }
    {
        self.stored
    }
}

// Rows that rise by their keys, in row order. Rows that agree in it stay in the order in which they came.
fn in_row_order(stored: Vec<Stored>) -> Result<Vec<Stored>, OutOfMemory>
    requires { IsSorted key_cmp stored.items }
    ensures { IfOk result (λ ordered. ordered.items ≡ put_rows [] stored.items) }
{
    if have_unlike_keys(&stored) {
        return Ok(stored);
    }
    let alloc = *stored.allocator();
    let mut rooms = Rooms::new(alloc);
    let mut ordered = Vec::with_capacity(alloc, stored.len())?;
    for row in stored {
        put_in_place(&mut ordered, row, &mut rooms)?;
    }
    Ok(ordered)
}

// Whether no two rows that follow each other, and rise by their keys, have one key.
fn have_unlike_keys(rows: &[Stored]) -> bool
    requires { IsSorted key_cmp rows.now }
    ensures { IsTrue result → rows.now ≡ put_rows [] rows.now }
{
    rows.is_sorted_by(|one, other| one.key_order(other).is_lt())
}
