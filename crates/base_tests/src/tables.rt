// What no clause says: that each generic call does its work at a concrete record, and that calls can succeed.
ghost use Rattle.std.specs.Prelude.{◌≡◌, None, Some};
ghost use Rattle.nv_table.specs.Table.{record_of};

use crate::ports::{Port, TagRef};
use nv_base::{Name, ObjId, OutOfMemory};
use nv_table::{Loose, Record, Table};
use std::alloc::Global;
use std::test::Fail;

const IDS: usize = 12;

const STEPS: u32 = 300;

/// What the table is compared with: the ports by their numbers.
#[derive(Clone, Copy, PartialEq, Eq)]
struct Row {
    name: u8,
    switch: u32,
    size: u64,
}

type Rows = [Option<Row>; 12];

fn name_of(alloc: Global, name: u8) -> Result<Name, OutOfMemory> {
    Name::from_slice(alloc, &[b'l', b'p', name])
}

// Which rows are wanted.
#[derive(Clone, Copy)]
enum Wanted {
    Named(u8),
    On(u32),
}

impl Wanted {
    fn has(self, row: Row) -> bool {
        match self {
            Wanted::Named(name) => row.name == name,
            Wanted::On(switch) => row.switch == switch,
        }
    }
}

fn loose_of(alloc: Global, id: ObjId, row: Row) -> Result<Loose<Port>, OutOfMemory> {
    let port = Port {
        id,
        name: name_of(alloc, row.name)?,
        switch: ObjId(row.switch),
        size: row.size,
    };
    Loose::new(alloc, port)
}

fn is_row(port: &Port, id: ObjId, row: Row) -> bool {
    port.id == id
        && port.name.as_slice() == [b'l', b'p', row.name].as_slice()
        && port.switch == ObjId(row.switch)
        && port.size == row.size
}

// Whether the port is that of the number, or there is neither.
fn is_at(found: Option<&Port>, id: ObjId, row: Option<Row>) -> bool {
    match (found, row) {
        (Some(port), Some(row)) => is_row(port, id, row),
        (None, None) => true,
        _ => false,
    }
}

fn is_loose_at(found: &Option<Loose<Port>>, id: ObjId, row: Option<Row>) -> bool {
    match found {
        Some(loose) => is_at(Some(loose.record()), id, row),
        None => row.is_none(),
    }
}

/// Puts a record in where none has its number, and tells whether it did.
fn put_new<R: Record>(table: &mut Table<R>, loose: Loose<R>) -> bool {
    let number = loose.record().number();
    if table.get(number).is_some() {
        return false;
    }
    table.put(loose);
    true
}

/// A record put in and taken out again leaves the table as it was.
fn put_and_undo<R: Record>(table: &mut Table<R>, loose: Loose<R>) -> Option<Loose<R>>
    requires { record_of R.number (R.number loose) table.old ≡ None }
    ensures loose { result ≡ Some loose }
    ensures records { table.new ≡ table.old }
{
    let number = loose.record().number();
    table.put(loose);
    table.take(number)
}

// Whether the ports with the name, or those on the switch, are these rows, in order.
fn has_tagged(table: &Table<Port>, tag: TagRef, rows: &Rows, wanted: Wanted) -> bool {
    let mut after = None;
    for id in 0..IDS {
        if let Some(row) = rows[id]
            && wanted.has(row)
        {
            let number = ObjId(id as u32);
            match table.tagged(&tag, after) {
                Some(port) if is_row(port, number, row) => after = Some(number),
                _ => return false,
            }
        }
    }
    table.tagged(&tag, after).is_none()
}

// Whether the ports are these rows, in order, and are counted.
fn has_rows(table: &Table<Port>, rows: &Rows) -> bool {
    let mut after = None;
    let mut count = 0u64;
    let mut size = 0u128;
    for id in 0..IDS {
        let number = ObjId(id as u32);
        if !is_at(table.get(number), number, rows[id]) {
            return false;
        }
        if let Some(row) = rows[id] {
            if !is_at(table.after(after), number, rows[id]) {
                return false;
            }
            after = Some(number);
            count = count.saturating_add(1);
            size = size.saturating_add(row.size as u128);
        }
    }
    table.after(after).is_none()
        && table.count() == count
        && table.weights() == (size, count as u128)
}

// Whether each lookup answers as the rows do.
fn agrees(table: &Table<Port>, rows: &Rows, names: &[Name]) -> bool {
    for (place, name) in names.iter().enumerate() {
        if place < 3 && !has_tagged(table, TagRef::Named(name), rows, Wanted::Named(place as u8)) {
            return false;
        }
    }
    for switch in 0..3u32 {
        let tag = TagRef::On(ObjId(switch));
        if !has_tagged(table, tag, rows, Wanted::On(switch)) {
            return false;
        }
    }
    has_rows(table, rows)
}

// The next of a row of numbers that look like random ones.
fn next(seed: &mut u32) -> u32 {
    *seed = seed.wrapping_mul(1_664_525).wrapping_add(1_013_904_223);
    *seed >> 16
}

fn next_row(seed: &mut u32) -> Row {
    Row {
        name: (next(seed) % 3) as u8,
        switch: next(seed) % 3,
        size: next(seed) as u64,
    }
}

// Takes a record out and puts it in again, and tells whether it is this old row.
fn is_taken_and_put(table: &mut Table<Port>, number: ObjId, old: Option<Row>) -> bool {
    let taken = table.take(number);
    let same = is_loose_at(&taken, number, old);
    match taken {
        Some(loose) => put_new(table, loose) && same,
        None => same,
    }
}

// One edit of the table and of the rows: whether the table answered as the rows say.
fn edit(
    table: &mut Table<Port>,
    rows: &mut Rows,
    alloc: Global,
    seed: &mut u32,
) -> Result<bool, OutOfMemory> {
    let id = (next(seed) % 12) as usize;
    let number = ObjId(id as u32);
    let row = next_row(seed);
    let old = rows[id];
    match next(seed) % 4 {
        0 => {
            if old.is_none() {
                rows[id] = Some(row);
            }
            Ok(put_new(table, loose_of(alloc, number, row)?) == old.is_none())
        }
        1 => {
            rows[id] = None;
            Ok(table.remove(number) == old.is_some())
        }
        2 => Ok(is_taken_and_put(table, number, old)),
        _ => {
            rows[id] = Some(row);
            let was = table.exchange(loose_of(alloc, number, row)?);
            Ok(is_loose_at(&was, number, old))
        }
    }
}

fn three_names(alloc: Global) -> Result<Vec<Name>, OutOfMemory> {
    let mut names = Vec::new(alloc);
    for name in 0..3 {
        names.push(name_of(alloc, name)?)?;
    }
    Ok(names)
}

// Whether the table answers each edit, and each lookup after it, as the rows say.
fn agrees_at_each_step(
    table: &mut Table<Port>,
    rows: &mut Rows,
    names: &[Name],
    alloc: Global,
) -> Result<bool, OutOfMemory> {
    let mut seed = 7;
    for _ in 0..STEPS {
        if !edit(table, rows, alloc, &mut seed)? || !agrees(table, rows, names) {
            return Ok(false);
        }
    }
    Ok(true)
}

// Whether a record that the table does not have is put in and taken out again.
fn is_put_and_undone(table: &mut Table<Port>, alloc: Global) -> Result<bool, OutOfMemory> {
    let row = Row {
        name: 1,
        switch: 2,
        size: 3,
    };
    let loose = loose_of(alloc, ObjId(99), row)?;
    if table.get(loose.record().number()).is_some() {
        return Ok(false);
    }
    let undone = put_and_undo(table, loose);
    Ok(is_loose_at(&undone, ObjId(99), Some(row)))
}

// Whether the table answers as rows do at each step, and after a record that is put in and taken out again.
fn answers_as_rows_do(
    table: &mut Table<Port>,
    names: &[Name],
    alloc: Global,
) -> Result<bool, OutOfMemory> {
    let mut rows: Rows = [None; 12];
    Ok(
        agrees_at_each_step(table, &mut rows, names, alloc)?
            && is_put_and_undone(table, alloc)?
            && agrees(table, &rows, names),
    )
}

#[test]
fn tables_answer_as_rows_do(rt: HostRuntime) -> Result<(), Fail> {
    let names = three_names(rt.alloc())?;
    let mut table = Table::new();
    let answers = answers_as_rows_do(&mut table, names.as_slice(), rt.alloc());
    drop(table);
    drop(names);
    assert!(rt; answers?);
    Ok(())
}
