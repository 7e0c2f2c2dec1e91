//! Places that came late are put among those that were known at once, in which a bucket is found faster.
ghost use Rattle.std.specs.Prelude.{ℕ, Contains};
ghost use Rattle.sb_model.specs.declared.row.Row as row_of;
ghost use Rattle.sb_rows.specs.inner.Index.{IsCovered};
ghost use Rattle.sb_rows.specs.inner.Store.{NumbersRise};

use crate::index::{Index, Places};
use std::alloc::Global;
use std::collections::BTreeSet;
use std::mem;

// So many places may come before they are put among those that were known at once.
const MANY: usize = 48;

// They are many where they are more than one in so many of those that were known at once. A look-up searches both. With a greater number fewer
// came since, and all are put together more often.
const SHARE: usize = 8;

impl Index {
    // Puts the places that came since among those that were known at once, where they are many. Where there is no memory for it, they stay.
    pub(crate) fn fold(&mut self, alloc: Global, rows: &Places)
        requires { NumbersRise rows.now.entries }
        ensures { (r : row_of.Row) (p : ℕ) → Contains rows.now.entries (p, r) → IsCovered r p self.old → IsCovered r p self.new }
    {
        if !self.has_many_more() {
            return;
        }
        self.clear(rows);
        self.fold_all(alloc);
    }

    // Takes out the places of those that were known at once at which no row is, where some were struck.
    fn clear(&mut self, rows: &Places)
        requires { NumbersRise rows.now.entries }
        ensures { (r : row_of.Row) (p : ℕ) → Contains rows.now.entries (p, r) → IsCovered r p self.old → IsCovered r p self.new }
    {
        if self.struck == 0 {
            return;
        }
        self.filled.clear(rows);
        self.struck = 0;
    }

    // Puts all places that came since among the first ones. Where there is no memory for it, they stay.
    fn fold_all(&mut self, alloc: Global)
        ensures { (r : row_of.Row) (p : ℕ) → IsCovered r p self.old → IsCovered r p self.new }
    {
        let Ok(filled) = self.filled.with(alloc, &self.more) else {
            return;
        };
        drop(mem::replace(&mut self.filled, filled));
        drop(mem::replace(&mut self.more, BTreeSet::new(alloc)));
    }

    // Whether so many places came since that they are to be among the first ones.
    fn has_many_more(&self) -> bool {
        let more = self.more.len();
        more >= MANY && more > self.filled.len() / SHARE
    }
}
