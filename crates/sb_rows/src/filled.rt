//! Places after their buckets, in order.
ghost use Rattle.std.specs.Prelude.{◌≤◌, ◌⊎◌, ℕ, All, Contains, IfOk};
ghost use Rattle.std.specs.List.Sorted.{IsSorted};
ghost use Rattle.sb_model.specs.declared.row.Row as row_of;
ghost use Rattle.sb_rows.specs.inner.Filled.{IsTurnBetween, pair_cmp};
ghost use Rattle.sb_rows.specs.inner.Store.{NumbersRise};

use crate::stored::Stored;
use nv_base::OutOfMemory;
use std::alloc::Global;
use std::collections::{BTreeMap, BTreeSet};
use std::marker::Model;

// Buckets and places in them, in order. A clause sees the list of them.
#[derive(Drop)]
pub(crate) struct Filled {
    places: Vec<(u64, u128)>,
}

impl Model for Filled {
    ghost use Rattle.std.specs.Prelude.{ℕ, List};
    ghost use Rattle.std.specs.List.Sorted.{IsSorted};
    ghost use Rattle.sb_rows.specs.inner.Filled.{pair_cmp};

    ghost Value = { List (ℕ × ℕ) };

    ghost view = { λ filled. filled.places.items };

    ghost invariant = { λ filled. IsSorted pair_cmp filled.places.items };
}

// Of fewer places a bucket's are not guessed.
const MANY: usize = 512;

// So far from a guess it is looked first, and then, whether the place is between: a wrong guess costs four looks.
const CLOSE: usize = 8;

const FAR: usize = 64;

// The places between which lower buckets end.
#[derive(Clone, Copy)]
struct Window {
    low: usize,
    high: usize,
}

impl Window {
    // All places.
    #[inline]
    fn all(places: &[(u64, u128)]) -> Window
        ensures { (bucket : ℕ) → IsTurnBetween places.now bucket result.low result.high }
    {
        Window {
            low: 0,
            high: places.len(),
        }
    }

    // It, narrowed by the bucket at a place, where this is in it.
    #[inline]
    fn narrowed(self, places: &[(u64, u128)], bucket: u64, at: usize) -> Window
        requires rise { IsSorted pair_cmp places.now }
        requires turn { IsTurnBetween places.now bucket self.low self.high }
        ensures { IsTurnBetween places.now bucket result.low result.high }
    {
        if at < self.low || self.high <= at {
            return self;
        }
        if places[at].0 < bucket {
            Window {
                low: at + 1,
                high: self.high,
            }
        } else {
            Window {
                low: self.low,
                high: at,
            }
        }
    }

    // It, narrowed by the buckets at places so far before and after a guess.
    #[inline]
    fn near(self, places: &[(u64, u128)], bucket: u64, guess: usize, far: usize) -> Window
        requires rise { IsSorted pair_cmp places.now }
        requires turn { IsTurnBetween places.now bucket self.low self.high }
        ensures { IsTurnBetween places.now bucket result.low result.high }
    {
        self.narrowed(places, bucket, guess.saturating_sub(far))
            .narrowed(places, bucket, guess.saturating_add(far))
    }

    // The place where lower buckets end, by halving it.
    fn turn(self, places: &[(u64, u128)], bucket: u64) -> usize
        requires rise { IsSorted pair_cmp places.now }
        requires turn { IsTurnBetween places.now bucket self.low self.high }
        ensures { IsTurnBetween places.now bucket result result }
    {
        let mut low = self.low;
        let mut high = self.high;
        while low < high {
            let middle = low + (high - low) / 2;
            if places[middle].0 < bucket {
                low = middle + 1;
            } else {
                high = middle;
            }
        }
        low
    }
}

impl Filled {
    // These, in order.
    pub(crate) fn of(mut places: Vec<(u64, u128)>) -> Filled
        ensures { (x : ℕ × ℕ) → Contains places.items x → Contains result x }
    {
        places.sort_unstable();
        Filled { places }
    }

    // These, and others. Both are in order, so the sort merges two runs.
    pub(crate) fn with(
        &self,
        alloc: Global,
        more: &BTreeSet<(u64, u128)>,
    ) -> Result<Filled, OutOfMemory>
        ensures { IfOk result (λ filled. (x : ℕ × ℕ) → Contains self.now x ⊎ Contains more.now.keys x → Contains filled x) }
    {
        let count = self.places.len().saturating_add(more.len());
        let mut places = Vec::with_capacity(alloc, count)?;
        places.extend_from_slice(&self.places)?;
        for place in more.iter() {
            places.push(*place)?;
        }
        places.sort()?;
        Ok(Filled { places })
    }

    // How many there are.
    pub(crate) fn len(&self) -> usize {
        self.places.len()
    }

    // Those of a bucket, in order, and after them those of higher ones.
    pub(crate) fn from_bucket(&self, bucket: u64) -> &[(u64, u128)]
        ensures rise { IsSorted pair_cmp result.now }
        ensures from { All (λ x. bucket ≤ x.0) result.now }
        ensures all { (place : ℕ) → Contains self.now (bucket, place) → Contains result.now (bucket, place) }
    {
        let from = self.window(bucket).turn(&self.places, bucket);
        &self.places[from..]
    }

    // Places between which those of lower buckets end, near a guess where there are many.
    fn window(&self, bucket: u64) -> Window
        ensures { IsTurnBetween self.now bucket result.low result.high }
    {
        let places: &[(u64, u128)] = &self.places;
        let all = Window::all(places);
        if places.len() < MANY {
            return all;
        }
        let guess = self.guess(bucket);
        let close = all.near(places, bucket, guess, CLOSE);
        close.near(places, bucket, guess, FAR)
    }

    // A guess of the place where lower buckets end, which need not be near: by the bucket, and anew by the one at that place.
    fn guess(&self, bucket: u64) -> usize {
        let first = self.share(bucket);
        match self.places.get(first) {
            Some((there, _)) if *there < bucket => first.saturating_add(self.share(
                bucket - *there,
            )),
            Some((there, _)) => first.saturating_sub(self.share(*there - bucket)),
            None => first,
        }
    }

    // How many places may be in so many buckets, of those below `FIRST_OWN`, where these are spread evenly.
    #[inline]
    fn share(&self, buckets: u64) -> usize {
        ((buckets >> 32).wrapping_mul(self.places.len() as u64) >> 31) as usize
    }

    // Those from a place of a bucket on, in order, and after them those of higher ones.
    pub(crate) fn from_place(&self, bucket: u64, place: u128) -> &[(u64, u128)]
        ensures rise { IsSorted pair_cmp result.now }
        ensures from { All (λ x. bucket ≤ x.0) result.now }
        ensures all { (p : ℕ) → place ≤ p → Contains self.now (bucket, p) → Contains result.now (bucket, p) }
    {
        let rest = self.from_bucket(bucket);
        let from = rest.partition_point(|there| there.0 == bucket && there.1 < place);
        &rest[from..]
    }

    // Whether a bucket has so many places and one more.
    pub(crate) fn has_more(&self, bucket: u64, count: usize) -> bool {
        match self.from_bucket(bucket).get(count) {
            Some((there, _)) => *there == bucket,
            None => false,
        }
    }

    // Takes out those at which no row is. It takes no memory.
    pub(crate) fn clear(&mut self, rows: &BTreeMap<u128, Stored>)
        requires { NumbersRise rows.now.entries }
        ensures { (b p : ℕ) (r : row_of.Row) → Contains rows.now.entries (p, r) → Contains self.old (b, p) → Contains self.new (b, p) }
    {
        self.places.retain(|(_, place)| rows.contains_key(place));
    }
}
