ghost use Rattle.std.specs.Prelude.{◌≡◌, [], length, map, All, Contains, IsTrue, ◌↔◌, ◌⊎◌, IfOk, OnOk, OnErr, slice_get};
ghost use Rattle.std.specs.Bool.{OnTrue, OnFalse};
ghost use Rattle.std.specs.Option.{option_copied};
ghost use Rattle.sb_model.specs.declared.row.Row as row_of;
ghost use Rattle.sb_rows.specs.Row.{AgreeAsOne, AreRows, HasTypedMatch, IsSetOf, IsWithout, put_row, rows_of};
ghost use Rattle.sb_rows.specs.Match.{select};

use crate::datapath_rows::{DatapathRows, STAGES};
use crate::store::{Tables, drop_empty, put_in, row_at, tables_of, take_from};
use crate::stored::{Stored, first_key, table_key};
use crate::{NewRows, RowList};
use expr_ports::PortNames;
use nv_base::{ObjId, OutOfMemory};
use pkt_core::Packet;
use sb_model::{Row, Stage};
use std::alloc::Global;
use std::marker::Model;

/// The rows of the logical flow table, in row order, none of them twice, each match well-typed. A clause sees it as the
/// list of the rows.
#[derive(Drop)]
pub struct Rows {
    alloc: Global,
    tables: Tables,
    count: usize,
}

impl Model for Rows {
    ghost use Rattle.std.specs.Prelude.{List};
    ghost use Rattle.sb_model.specs.declared.row.Row.{Row};
    ghost use Rattle.std.specs.List.{flat_map};
    ghost use Rattle.sb_rows.specs.inner.Store.{IsStore};
    ghost use Rattle.sb_model.specs.contracts.row.Row as row_of;
    ghost use Rattle.std.specs.Coded.{codes};

    ghost Value = { List Row };

    ghost coded = { Prim.hlevel (codes, row_of.the_row.coded) };

    ghost view = { λ r. flat_map (λ table. table.1) r.tables.entries };

    ghost invariant = { λ r. IsStore r.tables.entries r.count };
}

impl Rows {
    /// No rows. It takes no memory.
    pub fn new(alloc: Global) -> Self
        ensures { result ≡ [] }
    {
        Rows {
            alloc,
            tables: Tables::new(alloc),
            count: 0,
        }
    }

    /// The rows of a list as a set, in row order (ovn-sb(5), 'Logical_Flow TABLE'; the order is not from OVN): one that
    /// is there twice is one row. Those that agree in datapath, stage, priority, hint and match are equal, and each match
    /// is well-typed. Where memory runs out the answer is `OutOfMemory`.
    pub fn of_all(alloc: Global, new: NewRows) -> Result<Rows, OutOfMemory>
        requires agree { AgreeAsOne new }
        requires typed { All HasTypedMatch new }
        ensures { IfOk result (λ rows. IsSetOf rows new) }
    {
        let mut sorted = new.into_list()?.into_stored();
        sorted.dedup_by(|next, last| next.is_same(last));
        let count = sorted.len();
        let tables = tables_of(alloc, sorted)?;
        Ok(Rows {
            alloc,
            tables,
            count,
        })
    }

    /// Whether an equal row is there. Its match and actions are compared only with rows that agree with it in all else.
    pub fn contains(&self, row: &Row) -> bool
        ensures { IsTrue result ↔ Contains self.now row.now }
    {
        match self.tables.get(&table_key(row.dp, row.stage)) {
            Some(table) => table.contains(row),
            None => false,
        }
    }

    /// Puts one more row, unlike each that is there, in its place. After `OutOfMemory` the rows are as
    /// before.
    pub fn put(&mut self, row: Row) -> Result<(), OutOfMemory>
        requires absent { ¬ Contains self.old row }
        requires typed { HasTypedMatch row }
        ensures ok { OnOk result (self.new ≡ put_row row self.old) }
        ensures err { OnErr result (self.new ≡ self.old) }
    {
        let stored = Stored::new(self.alloc, row)?;
        self.put_stored(stored)
    }

    // The same of a row beside its key.
    fn put_stored(&mut self, row: Stored) -> Result<(), OutOfMemory>
        requires absent { ¬ Contains self.old row }
        requires typed { HasTypedMatch row }
        ensures ok { OnOk result (self.new ≡ put_row row self.old) }
        ensures err { OnErr result (self.new ≡ self.old) }
    {
        let Some(count) = self.count.checked_add(1) else {
            drop(row);
            return Err(OutOfMemory);
        };
        put_in(self.alloc, &mut self.tables, row)?;
        self.count = count;
        Ok(())
    }

    /// Puts those rows of a list that are not there, each in its place, which is shared with the list. After `OutOfMemory` some of them may be there.
    pub fn put_missing(&mut self, list: &RowList) -> Result<(), OutOfMemory>
        requires { All HasTypedMatch list.now }
        ensures put { OnOk result ((r : row_of.Row) → Contains list.now r → Contains self.new r) }
        ensures kept { (r : row_of.Row) → Contains self.old r → Contains self.new r }
        ensures known { (r : row_of.Row) → Contains self.new r → Contains self.old r ⊎ Contains list.now r }
    {
        let rows = list.as_stored();
        for stored in rows {
            self.put_shared(stored)?;
        }
        Ok(())
    }

    // The same of one row.
    fn put_shared(&mut self, stored: &Stored) -> Result<(), OutOfMemory>
        requires { HasTypedMatch stored.now }
        ensures put { OnOk result (Contains self.new stored.now) }
        ensures kept { (r : row_of.Row) → Contains self.old r → Contains self.new r }
        ensures known { (r : row_of.Row) → Contains self.new r → Contains self.old r ⊎ (stored.now ≡ r) }
    {
        if self.contains(stored.row()) {
            return Ok(());
        }
        let copied = stored.copy()?;
        self.put_stored(copied)
    }

    /// Takes the row out, and tells whether it was there. It is looked for as `contains` does. It takes no memory.
    pub fn take(&mut self, row: &Row) -> bool
        ensures there { IsTrue result ↔ Contains self.old row.now }
        ensures taken { OnTrue result (IsWithout row.now self.old self.new) }
        ensures kept { OnFalse result (self.new ≡ self.old) }
    {
        if !take_from(&mut self.tables, row) {
            return false;
        }
        drop_empty(&mut self.tables, table_key(row.dp, row.stage));
        self.count -= 1;
        true
    }

    /// Takes each row of a list out that is there. Each is looked for as `contains` does. It takes no memory.
    pub fn take_all(&mut self, list: &RowList)
        ensures { (r : row_of.Row) → Contains self.new r ↔ (Contains self.old r × ¬ Contains list.now r) }
    {
        let rows = list.as_stored();
        for stored in rows {
            self.leave_out(stored.row());
        }
    }

    // The same of one row.
    fn leave_out(&mut self, row: &Row)
        ensures { (r : row_of.Row) → Contains self.new r ↔ (Contains self.old r × ¬ (row.now ≡ r)) }
    {
        if self.count > 0 {
            self.take(row);
        }
    }

    /// How many rows there are.
    pub fn len(&self) -> usize
        ensures { result ≡ length self.now }
    {
        self.count
    }

    /// Whether there is no row.
    pub fn is_empty(&self) -> bool
        ensures { IsTrue result ↔ (self.now ≡ []) }
    {
        self.count == 0
    }

    /// The row at this place, from 0, in row order. None exactly where there are not so many. It goes over the tables before, and over
    /// the rows of its own.
    pub fn get(&self, at: usize) -> Option<&Row>
        ensures row { option_copied result ≡ slice_get self.now at }
        ensures rows { AreRows self.now }
    {
        row_at(&self.tables, at)
    }

    // The rows of one datapath, in row order. It looks at none of the others.
    pub(crate) fn of_datapath(&self, dp: ObjId) -> Result<Vec<&Row>, OutOfMemory>
        ensures { IfOk result (λ list. map (λ r. r.now) list.items ≡ rows_of dp self.now) }
    {
        let first = first_key(dp);
        let mut rows = Vec::new(self.alloc);
        for (_, table) in self.tables.range(first..first + STAGES as u64) {
            table.put_last(&mut rows)?;
        }
        Ok(rows)
    }

    /// The rows of a datapath, for many searches in its tables: each is looked for once. It takes no memory.
    pub fn datapath(&self, dp: ObjId) -> DatapathRows<'_>
        ensures { result ≡ (dp, self.now) }
    {
        let first = first_key(dp);
        let mut tables = [None; STAGES];
        for (key, table) in self.tables.range(first..first + STAGES as u64) {
            tables[(*key - first) as usize] = Some(table);
        }
        DatapathRows {
            dp,
            all: self,
            tables,
        }
    }

    /// The row that acts on a packet in a table: the first one in row order whose match holds. Of a table of
    /// many rows it looks at those that ask for what the packet has. It takes no memory.
    pub fn select<E: PortNames>(
        &self,
        dp: ObjId,
        stage: Stage,
        packet: &Packet,
        env: &E,
    ) -> Option<&Row>
        ensures { option_copied result ≡ select dp stage (E.lookup env.now) packet.now self.now }
    {
        self.tables.get(&table_key(dp, stage))?.first(packet, env)
    }
}
