//! Tables of rows by their places among all.
ghost use Rattle.std.specs.Prelude.{◌≡◌, [], ◌∷◌, ◌++◌, ◌<◌, ◌≤◌, ◌↔◌, ℕ, None, Some, All, Contains, IsTrue, IfOk, OnErr, OnOk, slice_get};
ghost use Rattle.std.specs.Bool.{OnTrue, OnFalse};
ghost use Rattle.std.specs.Option.{option_copied};
ghost use Rattle.std.specs.BTreeMap.{get, insert_entry};
ghost use Rattle.std.specs.Ordering.{nat_cmp};
ghost use Rattle.sb_rows.specs.Row.{IsInRowOrder, IsWithout, put_row};
ghost use Rattle.sb_rows.specs.inner.Store.{AreTables, NumbersRise, flat};
ghost use Rattle.sb_rows.specs.inner.Tables.{key_of};

use crate::stored::{Stored, table_key};
use crate::table::Table;
use nv_base::OutOfMemory;
use sb_model::Row;
use std::alloc::Global;
use std::collections::BTreeMap;
use std::mem;

// Tables by their places among all.
pub(crate) type Tables = BTreeMap<u64, Table>;

// The tables of rows in row order.
pub(crate) fn tables_of(alloc: Global, sorted: Vec<Stored>) -> Result<Tables, OutOfMemory>
    requires { IsInRowOrder sorted.items }
    ensures tables { IfOk result (λ tables. AreTables tables.entries) }
    ensures rows { IfOk result (λ tables. flat tables.entries ≡ sorted.items) }
{
    let mut tables = Vec::new(alloc);
    let mut rows = Vec::new(alloc);
    let mut key = 0;
    for row in sorted {
        let next = row.table_key();
        begin_table(alloc, &mut tables, &mut rows, key, next)?;
        key = next;
        rows.push(row)?;
    }
    add_table(alloc, &mut tables, key, rows)?;
    Ok(tables.into_iter().collect(alloc)?)
}

// Puts the table of the rows so far last, where the next row is of another one.
fn begin_table(
    alloc: Global,
    tables: &mut Vec<(u64, Table)>,
    rows: &mut Vec<Stored>,
    key: u64,
    next: u64,
) -> Result<(), OutOfMemory>
    requires order { IsInRowOrder rows.old.items }
    requires keyed { All (λ r. key_of r ≡ key) rows.old.items }
    requires tables { AreTables tables.old.items }
    requires above { All (λ table. table.0 < key) tables.old.items }
    requires rise { key ≤ next }
    ensures tables { OnOk result (AreTables tables.new.items) }
    ensures above { OnOk result (All (λ table. table.0 < next) tables.new.items) }
    ensures keyed { OnOk result (All (λ r. key_of r ≡ next) rows.new.items) }
    ensures rows { OnOk result (flat tables.new.items ++ rows.new.items ≡ flat tables.old.items ++ rows.old.items) }
{
    if key == next {
        return Ok(());
    }
    add_table(alloc, tables, key, mem::replace(rows, Vec::new(alloc)))?;
    Ok(())
}

// Puts the table of some rows last, unless there are none.
fn add_table(
    alloc: Global,
    tables: &mut Vec<(u64, Table)>,
    key: u64,
    rows: Vec<Stored>,
) -> Result<(), OutOfMemory>
    requires order { IsInRowOrder rows.items }
    requires keyed { All (λ r. key_of r ≡ key) rows.items }
    requires tables { AreTables tables.old.items }
    requires above { All (λ table. table.0 < key) tables.old.items }
    ensures tables { OnOk result (AreTables tables.new.items) }
    ensures rows { OnOk result (flat tables.new.items ≡ flat tables.old.items ++ rows.items) }
    ensures below { OnOk result ((next : ℕ) → key < next → All (λ table. table.0 < next) tables.new.items) }
{
    if rows.is_empty() {
        return Ok(());
    }
    tables.push((key, Table::of(alloc, rows)?))?;
    Ok(())
}

// Puts one more row in its table. After `OutOfMemory` the rows are as before.
pub(crate) fn put_in(alloc: Global, tables: &mut Tables, row: Stored) -> Result<(), OutOfMemory>
    requires { AreTables tables.old.entries }
    ensures tables { AreTables tables.new.entries }
    ensures ok { OnOk result (flat tables.new.entries ≡ put_row row (flat tables.old.entries)) }
    ensures err { OnErr result (flat tables.new.entries ≡ flat tables.old.entries) }
{
    let key = row.table_key();
    match tables.get_mut(&key) {
        Some(table) => table.put(alloc, row),
        None => put_new(alloc, tables, key, row),
    }
}

// Puts a table of one row in, where there is none of its place. After `OutOfMemory` the tables are as before.
fn put_new(alloc: Global, tables: &mut Tables, key: u64, row: Stored) -> Result<(), OutOfMemory>
    requires absent { get nat_cmp tables.old key ≡ None }
    requires rise { NumbersRise tables.old.entries }
    ensures rise { NumbersRise tables.new.entries }
    ensures ok { OnOk result (tables.new.entries ≡ insert_entry nat_cmp tables.old.entries key (row ∷ [])) }
    ensures err { OnErr result (tables.new.entries ≡ tables.old.entries) }
{
    let mut rows = Vec::new(alloc);
    rows.push(row)?;
    let table = Table::of(alloc, rows)?;
    tables.insert(key, table)?;
    Ok(())
}

// Takes an equal row out of its table, and tells whether it was there. It takes no memory.
pub(crate) fn take_from(tables: &mut Tables, row: &Row) -> bool
    requires { AreTables tables.old.entries }
    ensures tables { AreTables tables.new.entries }
    ensures there { IsTrue result ↔ Contains (flat tables.old.entries) row.now }
    ensures taken { OnTrue result (IsWithout row.now (flat tables.old.entries) (flat tables.new.entries)) }
    ensures kept { OnFalse result (flat tables.new.entries ≡ flat tables.old.entries) }
{
    match tables.get_mut(&table_key(row.dp, row.stage)) {
        Some(table) => table.take(row),
        None => false,
    }
}

// Removes the table of this place, where it has no row.
pub(crate) fn drop_empty(tables: &mut Tables, key: u64)
    requires { AreTables tables.old.entries }
    ensures tables { AreTables tables.new.entries }
    ensures rows { flat tables.new.entries ≡ flat tables.old.entries }
{
    if is_emptied(tables, key) {
        tables.remove(&key);
    }
}

// Whether there is a table of this place without a row.
fn is_emptied(tables: &Tables, key: u64) -> bool
    ensures { IsTrue result → get nat_cmp tables.now key ≡ Some [] }
{
    match tables.get(&key) {
        Some(table) => table.is_empty(),
        None => false,
    }
}

// The row after so many of all. It goes over the tables before its own.
pub(crate) fn row_at(tables: &Tables, at: usize) -> Option<&Row>
    ensures { option_copied result ≡ slice_get (flat tables.now.entries) at }
{
    let mut left = at;
    for table in tables.values() {
        if left < table.len() {
            return table.get(left);
        }
        left -= table.len();
    }
    None
}
