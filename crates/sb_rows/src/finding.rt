//! The place of a row, by what its match asks.
ghost use Rattle.std.specs.Prelude.{◌≡◌, ◌↔◌, ℕ, None, Some, Contains, IfSome, IsTrue};
ghost use Rattle.sb_rows.specs.declared.asks.Asks.{Asks};
ghost use Rattle.sb_rows.specs.inner.Asks.{bucket_of, name_of, numbers_of};
ghost use Rattle.sb_rows.specs.inner.Index.{Covers, IsHeld, IsIn};
ghost use Rattle.sb_rows.specs.inner.Own.{own_bucket};
ghost use Rattle.sb_rows.specs.inner.Plain.{plain};
ghost use Rattle.sb_rows.specs.inner.Store.{ArePlaced};

use crate::asks::Asks;
use crate::index::{Index, Places};
use crate::spacing::{PLACES, first_place};
use crate::stored::rank_key;
use sb_model::Row;

impl Index {
    // The place of an equal row, if it is there. Of the rows of its rank those are compared that ask what it asks.
    pub(crate) fn place_of(&self, rows: &Places, row: &Row) -> Option<u128>
        requires placed { ArePlaced rows.now.entries }
        requires covered { Covers self.now rows.now.entries }
        ensures there { IfSome result (λ place. Contains rows.now.entries (place, row.now)) }
        ensures absent { result ≡ None → (p : ℕ) → Contains rows.now.entries (p, row.now) → ⊥ }
    {
        let asks = Asks::of(&row.matching);
        match self.place_asked(rows, row, asks.in_short()) {
            Some(place) => Some(place),
            None => self.place_asked(rows, row, asks),
        }
    }

    // The same in the bucket of what is asked, and in the one that this has of its own.
    fn place_asked(&self, rows: &Places, row: &Row, asks: Asks<'_>) -> Option<u128>
        requires { ArePlaced rows.now.entries }
        ensures there { IfSome result (λ place. Contains rows.now.entries (place, row.now)) }
        ensures absent { result ≡ None → (other : Asks) (p : ℕ) → plain other ≡ plain asks.entry → IsHeld self.now other p → Contains rows.now.entries (p, row.now) → ⊥ }
    {
        let shared = asks.bucket();
        match self.place_in(rows, row, shared) {
            Some(place) => Some(place),
            None => self.place_in_own(rows, row, asks, shared),
        }
    }

    // The same in the bucket that this has of its own.
    fn place_in_own(&self, rows: &Places, row: &Row, asks: Asks<'_>, shared: u64) -> Option<u128>
        requires placed { ArePlaced rows.now.entries }
        requires shared { shared ≡ bucket_of asks }
        ensures there { IfSome result (λ place. Contains rows.now.entries (place, row.now)) }
        ensures absent { result ≡ None → (bucket p : ℕ) → own_bucket self.now.own (name_of asks.entry.port) (bucket_of asks.entry) (numbers_of asks.entry) ≡ Some bucket → IsIn self.now bucket p → Contains rows.now.entries (p, row.now) → ⊥ }
    {
        match self.own.bucket(asks.name(), shared, asks.numbers()) {
            Some(bucket) => self.place_in(rows, row, bucket),
            None => None,
        }
    }

    // The same in one bucket.
    fn place_in(&self, rows: &Places, row: &Row, bucket: u64) -> Option<u128>
        requires { ArePlaced rows.now.entries }
        ensures there { IfSome result (λ place. Contains rows.now.entries (place, row.now)) }
        ensures absent { result ≡ None → (p : ℕ) → IsIn self.now bucket p → Contains rows.now.entries (p, row.now) → ⊥ }
    {
        match self.place_in_filled(rows, row, bucket) {
            Some(place) => Some(place),
            None => self.place_in_more(rows, row, bucket),
        }
    }

    // The same among the places of a bucket that were known at once.
    fn place_in_filled(&self, rows: &Places, row: &Row, bucket: u64) -> Option<u128>
        requires { ArePlaced rows.now.entries }
        ensures there { IfSome result (λ place. Contains rows.now.entries (place, row.now)) }
        ensures absent { result ≡ None → (p : ℕ) → Contains self.now.filled (bucket, p) → Contains rows.now.entries (p, row.now) → ⊥ }
    {
        let first = first_place(rank_key(row.priority, row.hint));
        let end = first + PLACES;
        for (there, place) in self.filled.from_place(bucket, first) {
            if *there != bucket || end <= *place {
                break;
            }
            if is_at(rows, *place, row) {
                return Some(*place);
            }
        }
        None
    }

    // The same among those that came since.
    fn place_in_more(&self, rows: &Places, row: &Row, bucket: u64) -> Option<u128>
        requires { ArePlaced rows.now.entries }
        ensures there { IfSome result (λ place. Contains rows.now.entries (place, row.now)) }
        ensures absent { result ≡ None → (p : ℕ) → Contains self.now.more.keys (bucket, p) → Contains rows.now.entries (p, row.now) → ⊥ }
    {
        let first = first_place(rank_key(row.priority, row.hint));
        let end = first + PLACES;
        for (there, place) in self.more.range((bucket, first)..) {
            if *there != bucket || end <= *place {
                break;
            }
            if is_at(rows, *place, row) {
                return Some(*place);
            }
        }
        None
    }
}

// Whether an equal row is at a place.
fn is_at(rows: &Places, place: u128, row: &Row) -> bool
    requires { ArePlaced rows.now.entries }
    ensures { IsTrue result ↔ Contains rows.now.entries (place, row.now) }
{
    match rows.get(&place) {
        Some(stored) => is_same(stored.row(), row),
        None => false,
    }
}

// Whether two rows are equal.
pub(crate) fn is_same(one: &Row, other: &Row) -> bool
    ensures { IsTrue result ↔ (one.now ≡ other.now) }
{
    one == other
}
