//! A row beside what searches look at first.
ghost use Rattle.std.specs.Prelude.{◌≡◌, ◌<◌, ◌*◌, IfOk};
ghost use Rattle.expr_eval.specs.MatchMeaning.{holds};
ghost use Rattle.sb_rows.specs.Row.{key_cmp};
ghost use Rattle.sb_rows.specs.inner.Beside.{FitsItsKey, is_same, key_of_row, order_of_keys};
ghost use Rattle.sb_rows.specs.inner.Tables.{table_key, rank_key, rank_of, key_of};

use expr_core::Env;
use expr_eval::holds;
use nv_base::{ObjId, OutOfMemory};
use pkt_core::Packet;
use sb_model::{Row, Stage};
use std::alloc::Global;
use std::cmp::Ordering;
use std::marker::Model;
use std::rc::Rc;

// What orders rows before the texts of their matches do: two numbers, of which the first that differs decides.
#[derive(Clone, Copy)]
pub(crate) struct Key {
    // The place of the row's table among all.
    table: u64,
    // The place of the row in its table.
    rank: u64,
}

// A row beside what sorts and searches look at first: its key. A clause sees it as the row. It is small, since many are moved where rows are put in order.
// Copies share the row.
#[derive(Drop)]
pub(crate) struct Stored {
    key: Key,
    row: Rc<Row>,
}

impl Model for Stored {
    ghost use Rattle.sb_model.specs.declared.row.Row.{Row};
    ghost use Rattle.sb_model.specs.contracts.row.Row as row_of;
    ghost use Rattle.std.specs.Coded.{codes};

    ghost Value = { Row };

    ghost coded = { Prim.hlevel (codes, row_of.the_row.coded) };

    ghost use Rattle.sb_rows.specs.inner.Beside.{IsBeside};

    ghost view = { λ s. s.row.value };

    ghost invariant = { λ s. IsBeside s.row.value s.key };
}

impl Stored {
    pub(crate) fn new(alloc: Global, row: Row) -> Result<Self, OutOfMemory>
        ensures { IfOk result (λ stored. stored ≡ row) }
    {
        let key = key_of_row(&row);
        let row = Rc::new(alloc, row)?;
        Ok(Stored { key, row })
    }

    // The same row, shared. It takes no memory, but fails where no more may share it.
    pub(crate) fn copy(&self) -> Result<Self, OutOfMemory>
        ensures { IfOk result (λ copied. copied ≡ self.now) }
    {
        let row = self.row.clone()?;
        Ok(Stored { key: self.key, row })
    }

    pub(crate) fn row(&self) -> &Row
        ensures { result.now ≡ self.now }
    {
        &self.row
    }

    // The place of the row's table among all. The row is not looked at.
    pub(crate) fn table_key(&self) -> u64
        ensures { result ≡ key_of self.now }
    {
        self.key.table
    }

    // The place of the row's priority and hint among those of its table. The row is not looked at.
    pub(crate) fn rank(&self) -> u64
        ensures rank { result ≡ rank_of self.now }
        ensures fits { FitsItsKey self.now }
    {
        self.key.rank
    }

    // Whether the match holds of the packet.
    #[inline]
    pub(crate) fn takes<E: Env>(&self, packet: &Packet, env: &E) -> bool
        ensures { result ≡ holds (E.lookup env.now) packet.now self.now.matching }
    {
        holds(&self.row().matching, packet, env)
    }

    // The order of the row and another by all but their matches: by datapath, stage, falling priority, and hint. The rows are not looked at.
    #[tactic(auto, using(crate::proofs::Tables::keys_order))]
    #[inline]
    pub(crate) fn key_order(&self, other: &Stored) -> Ordering
        ensures { result ≡ key_cmp self.now other.now }
    {
        order_of_keys(self.key, other.key)
    }

    // Whether the two are one row. What is in the rows is compared only where their keys are equal.
    pub(crate) fn is_same(&self, other: &Stored) -> bool
        ensures { result ≡ is_same self.now other.now }
    {
        self.key_order(other).is_eq() && self.row == other.row
    }
}

impl PartialEq for Stored {
    ghost use Rattle.sb_model.specs.inner.Exact.{same_row};
    ghost use Rattle.sb_rows.specs.inner.Exact.{rows_per};

    ghost eq = { same_row };

    ghost laws = { rows_per };

    fn eq(&self, other: &Self) -> bool {
        self.row() == other.row()
    }
}

// The key of a row.
fn key_of_row(row: &Row) -> Key
    ensures key { result ≡ key_of_row row.now }
    ensures fits { FitsItsKey row.now }
{
    Key {
        table: table_key(row.dp, row.stage),
        rank: rank_key(row.priority, row.hint),
    }
}

// The order of keys: by table, then by the place in it.
#[inline]
fn order_of_keys(one: Key, other: Key) -> Ordering
    ensures { result ≡ order_of_keys one other }
{
    one.table.cmp(&other.table).then(one.rank.cmp(&other.rank))
}

// The place of a table among all: by datapath, then by stage.
pub(crate) fn table_key(dp: ObjId, stage: Stage) -> u64
    ensures { result ≡ table_key dp stage }
{
    first_key(dp) + u64::from(stage.place())
}

// The place of the first table that a datapath may have.
pub(crate) fn first_key(dp: ObjId) -> u64
    ensures { result ≡ dp.0 * 32 }
{
    u64::from(dp.0) * 32
}

// The place of a row in its table: by falling priority, then by hint.
pub(crate) fn rank_key(priority: u16, hint: ObjId) -> u64
    ensures key { result ≡ rank_key priority hint }
    ensures fits { (priority < 65536) × (hint.0 < 4294967296) }
{
    u64::from(u16::MAX - priority) * (1 << 32) + u64::from(hint.0)
}
