//! The rows of one table.
ghost use Rattle.std.specs.Prelude.{◌≡◌, ◌∷◌, [], ◌+◌, ◌++◌, ◌<◌, ◌≤◌, ℕ, None, All, Contains, IfOk, IfSome, IsTrue, ◌↔◌, OnErr, OnOk, length, map, slice_get};
ghost use Rattle.std.specs.Bool.{OnTrue, OnFalse};
ghost use Rattle.std.specs.List.{find};
ghost use Rattle.std.specs.Option.{option_copied};
ghost use Rattle.expr_eval.specs.MatchMeaning.{holds};
ghost use Rattle.sb_model.specs.declared.row.Row as row_of;
ghost use Rattle.sb_rows.specs.Row.{IsInRowOrder, IsWithout, put_row};
ghost use Rattle.sb_rows.specs.inner.Store.{ArePlaced, GoesAt, IsPartedAt, IsTable, first_place, rows_of_places};
ghost use Rattle.sb_rows.specs.inner.Tables.{key_of, rank_of};

use crate::by_text::Rooms;
use crate::finding::is_same;
use crate::index::{Index, Places};
use crate::spacing::{PLACES, first_place, next_place, place_between};
use crate::stored::{Stored, rank_key};
use expr_core::Env;
use expr_ports::PortNames;
use nv_base::OutOfMemory;
use pkt_core::Packet;
use sb_model::Row;
use std::alloc::Global;
use std::marker::Model;
use std::mem;

// A table with fewer rows is looked through.
const FEW: usize = 8;

// The rows of a datapath's stage. A clause sees the list of the rows, in row order.
#[derive(Drop)]
pub(crate) struct Table {
    rows: Places,
    // What the rows are found by, where they are many.
    index: Option<Index>,
}

impl Model for Table {
    ghost use Rattle.std.specs.Prelude.{List};
    ghost use Rattle.sb_model.specs.declared.row.Row.{Row};
    ghost use Rattle.sb_model.specs.contracts.row.Row as row_of;
    ghost use Rattle.std.specs.Coded.{codes};
    ghost use Rattle.sb_rows.specs.inner.Store.{IsTable, rows_of_places};

    ghost Value = { List Row };

    ghost coded = { Prim.hlevel (codes, row_of.the_row.coded) };

    ghost view = { λ table. rows_of_places table.rows.entries };

    ghost invariant = { λ table. IsTable table.rows.entries table.index };
}

impl Table {
    // The rows of a list in row order, which are of one table.
    pub(crate) fn of(alloc: Global, sorted: Vec<Stored>) -> Result<Table, OutOfMemory>
        requires order { IsInRowOrder sorted.items }
        requires key { (key : ℕ) × All (λ r. key_of r ≡ key) sorted.items }
        ensures { IfOk result (λ table. table ≡ sorted.items) }
    {
        let mut placed = Vec::with_capacity(alloc, sorted.len())?;
        let mut last = None;
        for row in sorted {
            let place = next_place(last, row.rank())?;
            placed.push((place, row))?;
            last = Some(place);
        }
        let rows = placed.into_iter().collect(alloc)?;
        Table::by_places(alloc, rows)
    }

    // Rows by their places.
    fn by_places(alloc: Global, rows: Places) -> Result<Table, OutOfMemory>
        requires placed { ArePlaced rows.entries }
        requires order { IsInRowOrder (rows_of_places rows.entries) }
        ensures { IfOk result (λ table. table ≡ rows_of_places rows.entries) }
    {
        let index = if rows.len() < FEW {
            None
        } else {
            Some(Index::of(alloc, &rows)?)
        };
        Ok(Table { rows, index })
    }

    // How many rows there are.
    pub(crate) fn len(&self) -> usize
        ensures { result ≡ length self.now }
    {
        self.rows.len()
    }

    // Whether there is no row.
    pub(crate) fn is_empty(&self) -> bool
        ensures { IsTrue result ↔ (self.now ≡ []) }
    {
        self.rows.is_empty()
    }

    // The row after so many. None exactly where there are not so many. It goes over those before.
    pub(crate) fn get(&self, at: usize) -> Option<&Row>
        ensures { option_copied result ≡ slice_get self.now at }
    {
        match self.rows.values().nth(at) {
            Some(stored) => Some(stored.row()),
            None => None,
        }
    }

    // Puts the rows after those of a list. After `OutOfMemory` some may be there.
    pub(crate) fn put_last<'r>(&'r self, list: &mut Vec<&'r Row>) -> Result<(), OutOfMemory>
        ensures { OnOk result (map (λ r. r.now) list.new.items ≡ map (λ r. r.now) list.old.items ++ self.now) }
    {
        for stored in self.rows.values() {
            list.push(stored.row())?;
        }
        Ok(())
    }

    // Whether an equal row is there. Its match and actions are compared only with rows that agree with it in all else.
    pub(crate) fn contains(&self, row: &Row) -> bool
        ensures { IsTrue result ↔ Contains self.now row.now }
    {
        place_of(&self.rows, &self.index, row).is_some()
    }

    // The first row whose match holds of the packet.
    pub(crate) fn first<E: PortNames>(&self, packet: &Packet, env: &E) -> Option<&Row>
        ensures { option_copied result ≡ find (λ r. holds (E.lookup env.now) packet.now r.matching) self.now }
    {
        match &self.index {
            Some(index) => index.first(&self.rows, packet, env),
            None => first_of(&self.rows, packet, env),
        }
    }

    // Puts one more row of the table in its place. After `OutOfMemory` the rows are as before.
    pub(crate) fn put(&mut self, alloc: Global, row: Stored) -> Result<(), OutOfMemory>
        requires { All (λ r. key_of r ≡ key_of row) self.old }
        ensures ok { OnOk result (self.new ≡ put_row row self.old) }
        ensures err { OnErr result (self.new ≡ self.old) }
    {
        let mut rooms = Rooms::new(alloc);
        let Some(row) = self.put_where_free(alloc, row, &mut rooms)? else {
            self.settle(alloc);
            self.renew(alloc);
            return Ok(());
        };
        // No place is left between two rows. They are set apart anew, in a table of their own until that is whole.
        let mut spaced = match self.spaced(alloc) {
            Ok(spaced) => spaced,
            Err(failed) => {
                drop(row);
                return Err(failed);
            }
        };
        match spaced.put_where_free(alloc, row, &mut rooms) {
            Ok(None) => {
                drop(mem::replace(self, spaced));
                Ok(())
            }
            Ok(Some(row)) => {
                drop(row);
                drop(spaced);
                Err(OutOfMemory)
            }
            Err(failed) => {
                drop(spaced);
                Err(failed)
            }
        }
    }

    // Puts one more row of the table in its place, or answers it where none is free there. After `OutOfMemory` the rows are as before.
    fn put_where_free(
        &mut self,
        alloc: Global,
        row: Stored,
        rooms: &mut Rooms,
    ) -> Result<Option<Stored>, OutOfMemory>
        requires { All (λ r. key_of r ≡ key_of row) self.old }
        ensures put { IfOk result (λ left. left ≡ None → self.new ≡ put_row row self.old) }
        ensures left { IfOk result (λ left. IfSome left (λ r. (r ≡ row) × (self.new ≡ self.old))) }
        ensures err { OnErr result (self.new ≡ self.old) }
    {
        match free_place(&self.rows, &row, rooms) {
            Ok(Some(place)) => {
                put_at(alloc, &mut self.rows, &mut self.index, place, row)?;
                Ok(None)
            }
            Ok(None) => Ok(Some(row)),
            Err(failed) => {
                drop(row);
                Err(failed)
            }
        }
    }

    // Puts what came late among what the rows are found by, where that is much. Where there is no memory for it, all is as it was.
    fn settle(&mut self, alloc: Global)
        ensures { self.new ≡ self.old }
    {
        if let Some(index) = &mut self.index {
            index.fold(alloc, &self.rows);
        }
    }

    // Makes what the rows are found by, where they are many and it is not there or has grown old. Where there is no memory for it, all is
    // as it was.
    fn renew(&mut self, alloc: Global)
        ensures { self.new ≡ self.old }
    {
        if !wants_index(&self.index, self.rows.len()) {
            return;
        }
        if let Ok(index) = Index::of(alloc, &self.rows) {
            drop(mem::replace(&mut self.index, Some(index)));
        }
    }

    // The same rows, with room between each two.
    fn spaced(&self, alloc: Global) -> Result<Table, OutOfMemory>
        requires { (key : ℕ) × All (λ r. key_of r ≡ key) self.now }
        ensures { IfOk result (λ spaced. spaced ≡ self.now) }
    {
        let mut copied = Vec::with_capacity(alloc, self.rows.len())?;
        for stored in self.rows.values() {
            copied.push(stored.copy()?)?;
        }
        Table::of(alloc, copied)
    }

    // Takes an equal row out, and tells whether it was there. It is looked for as `contains` does. It takes no memory.
    pub(crate) fn take(&mut self, row: &Row) -> bool
        ensures there { IsTrue result ↔ Contains self.old row.now }
        ensures taken { OnTrue result (IsWithout row.now self.old self.new) }
        ensures kept { OnFalse result (self.new ≡ self.old) }
    {
        let Some(place) = place_of(&self.rows, &self.index, row) else {
            return false;
        };
        self.rows.remove(&place);
        if let Some(index) = &mut self.index {
            index.strike(row, place, &self.rows);
        }
        true
    }
}

// The place of an equal row, if it is there. It is looked for by what its match asks, where that is kept.
fn place_of(rows: &Places, index: &Option<Index>, row: &Row) -> Option<u128>
    requires { IsTable rows.now.entries index.now }
    ensures there { IfSome result (λ place. Contains rows.now.entries (place, row.now)) }
    ensures absent { result ≡ None → Contains (rows_of_places rows.now.entries) row.now → ⊥ }
{
    match index {
        Some(index) => index.place_of(rows, row),
        None => place_in_rank(rows, row),
    }
}

// The place of an equal row, if it is there. Only rows of its rank are looked at.
fn place_in_rank(rows: &Places, row: &Row) -> Option<u128>
    requires { ArePlaced rows.now.entries }
    ensures there { IfSome result (λ place. Contains rows.now.entries (place, row.now)) }
    ensures absent { result ≡ None → Contains (rows_of_places rows.now.entries) row.now → ⊥ }
{
    let first = first_place(rank_key(row.priority, row.hint));
    for (place, stored) in rows.range(first..first + PLACES) {
        if is_same(stored.row(), row) {
            return Some(*place);
        }
    }
    None
}

// The first of some rows whose match holds of the packet.
fn first_of<'r, E: Env>(rows: &'r Places, packet: &Packet, env: &E) -> Option<&'r Row>
    ensures { option_copied result ≡ find (λ r. holds (E.lookup env.now) packet.now r.matching) (rows_of_places rows.now.entries) }
{
    for stored in rows.values() {
        if stored.takes(packet, env) {
            return Some(stored.row());
        }
    }
    None
}

// Puts a row at a place where it goes. After `OutOfMemory` the rows are as before.
fn put_at(
    alloc: Global,
    rows: &mut Places,
    index: &mut Option<Index>,
    place: u128,
    row: Stored,
) -> Result<(), OutOfMemory>
    requires table { IsTable rows.old.entries index.old }
    requires goes { GoesAt row place rows.old.entries }
    ensures table { IsTable rows.new.entries index.new }
    ensures ok { OnOk result (rows_of_places rows.new.entries ≡ put_row row (rows_of_places rows.old.entries)) }
    ensures err { OnErr result (rows.new.entries ≡ rows.old.entries) }
{
    if let Some(kept) = index {
        if kept.add(alloc, row.row(), place).is_err() {
            drop(row);
            return Err(OutOfMemory);
        }
    }
    rows.insert(place, row)?;
    Ok(())
}

// Whether so many rows are to be found by what is not there, or has grown old.
fn wants_index(index: &Option<Index>, rows: usize) -> bool {
    match index {
        Some(kept) => kept.is_old(rows),
        None => rows >= FEW,
    }
}

// A free place at which a row of this table goes, if one is left between those before and after it.
fn free_place(rows: &Places, row: &Stored, rooms: &mut Rooms) -> Result<Option<u128>, OutOfMemory>
    requires placed { ArePlaced rows.now.entries }
    requires order { IsInRowOrder (rows_of_places rows.now.entries) }
    requires key { All (λ r. key_of r ≡ key_of row.now) (rows_of_places rows.now.entries) }
    ensures { IfOk result (λ free. IfSome free (λ place. GoesAt row.now place rows.now.entries)) }
{
    let at = turning_place(rows, row, rooms)?;
    let rank = row.rank();
    let first = first_place(rank);
    let before = place_of_last(rows, first, at);
    let after = place_of_first(rows, at, first + PLACES);
    Ok(place_between(rank, before, after))
}

// The place of the first row between two places, if there is one.
fn place_of_first(rows: &Places, low: u128, high: u128) -> Option<u128>
    requires { low ≤ high }
    ensures inside { IfSome result (λ place. (low ≤ place) × (place < high)) }
    ensures first { IfSome result (λ place. (there : ℕ) (x : row_of.Row) → Contains rows.now.entries (there, x) → low ≤ there → there < high → place ≤ there) }
    ensures none { result ≡ None → (there : ℕ) (x : row_of.Row) → Contains rows.now.entries (there, x) → low ≤ there → there < high → ⊥ }
{
    match rows.range(low..high).next() {
        Some((place, _)) => Some(*place),
        None => None,
    }
}

// That of the last one.
fn place_of_last(rows: &Places, low: u128, high: u128) -> Option<u128>
    requires { low ≤ high }
    ensures inside { IfSome result (λ place. (low ≤ place) × (place < high)) }
    ensures last { IfSome result (λ place. (there : ℕ) (x : row_of.Row) → Contains rows.now.entries (there, x) → low ≤ there → there < high → there ≤ place) }
    ensures none { result ≡ None → (there : ℕ) (x : row_of.Row) → Contains rows.now.entries (there, x) → low ≤ there → there < high → ⊥ }
{
    match rows.range(low..high).next_back() {
        Some((place, _)) => Some(*place),
        None => None,
    }
}

// A place of a row's rank from which on all rows of the rank are after the row, and before which none is.
fn turning_place(rows: &Places, row: &Stored, rooms: &mut Rooms) -> Result<u128, OutOfMemory>
    requires placed { ArePlaced rows.now.entries }
    requires order { IsInRowOrder (rows_of_places rows.now.entries) }
    requires key { All (λ r. key_of r ≡ key_of row.now) (rows_of_places rows.now.entries) }
    ensures from { IfOk result (λ at. first_place (rank_of row.now) ≤ at) }
    ensures to { IfOk result (λ at. at ≤ first_place (rank_of row.now + 1)) }
    ensures parted { IfOk result (λ at. IsPartedAt row.now at rows.now.entries) }
{
    let mut low = first_place(row.rank());
    let mut high = low + PLACES;
    while low < high {
        let middle = low + (high - low) / 2;
        match rows.range(middle..high).next() {
            Some((place, there)) => {
                if rooms.is_after(there, row)? {
                    high = middle;
                } else {
                    low = *place + 1;
                }
            }
            None => match rows.range(low..middle).next_back() {
                Some((place, there)) => {
                    if rooms.is_after(there, row)? {
                        high = *place;
                    } else {
                        low = *place + 1;
                        high = low;
                    }
                }
                None => high = low,
            },
        }
    }
    Ok(low)
}
