//! What is kept of a table that has many rows, by which those that may take a packet are found.
ghost use Rattle.std.specs.Prelude.{◌≡◌, ◌<◌, ◌≤◌, ℕ, List, Contains, IfOk, IsTrue, OnOk, Some};
ghost use Rattle.std.specs.List.{find};
ghost use Rattle.std.specs.BTreeMap.{get};
ghost use Rattle.std.specs.Option.{option_copied};
ghost use Rattle.std.specs.Ordering.{nat_cmp};
ghost use Rattle.expr_eval.specs.MatchMeaning.{holds};
ghost use Rattle.sb_model.specs.declared.row.Row as row_of;
ghost use Rattle.sb_rows.specs.declared.asks.Asks.{Asks};
ghost use Rattle.sb_rows.specs.declared.index.Shaped.{Shaped};
ghost use Rattle.sb_rows.specs.declared.index.Wanted.{Wanted};
ghost use Rattle.sb_rows.specs.inner.Asks.{HasAsked, IsCalled, IsKnown, bucket_by, bucket_of, name_bucket, name_of, numbers_of, shape_of};
ghost use Rattle.sb_rows.specs.inner.Told.{AreTold};
ghost use Rattle.sb_rows.specs.inner.Index.{Covers, HasShape, IsCovered, IsFiled, IsHeld, IsIn, IsNoBetter, IsTaker, IsTried, IsWanted};
ghost use Rattle.sb_rows.specs.inner.Store.{ArePlaced, NumbersRise, rows_of_places};

use crate::asks::{Asks, Called, Known, Numbers, Shape, Side, known_at, ports_by};
use crate::counts::Counts;
use crate::crowds::Crowds;
use crate::filled::Filled;
use crate::own::Own;
use crate::stored::Stored;
use expr_core::Env;
use expr_ports::PortNames;
use nv_base::{Name, OutOfMemory};
use pkt_core::Packet;
use sb_model::Row;
use std::alloc::Global;
use std::collections::{BTreeMap, BTreeSet};

// The rows of a table by their places.
pub(crate) type Places = BTreeMap<u128, Stored>;

// So many places are in a bucket that unlike rows may share, of those that were known at once and of those that came since. Others are in
// buckets of their own.
const ROOM: u8 = 8;

// What the match of the row at a place asks.
#[derive(Clone, Copy)]
struct Told<'r> {
    place: u128,
    asks: Asks<'r>,
}

// What is looked for: a bucket, and the name and the numbers that may have one of their own.
#[derive(Clone, Copy)]
struct Wanted<'n> {
    bucket: u64,
    name: Option<&'n Name>,
    numbers: Numbers,
}

// A row at its place.
type Found<'r> = (u128, &'r Row);

// What buckets are told by, and a place before which no row is in them.
#[derive(Clone, Copy)]
struct Shaped {
    shape: Shape,
    from: u128,
}

// Where the rows of a table are that may take a packet. It may name places that have no row.
#[derive(Drop)]
pub(crate) struct Index {
    // A port whose name its matches ask for, if they ask for one.
    side: Option<Side>,
    // What its buckets are told by. Those that the first rows have come first.
    shapes: Vec<Shaped>,
    // The places that were known at once, by their buckets.
    pub(crate) filled: Filled,
    // Those that came since, after their buckets.
    pub(crate) more: BTreeSet<(u64, u128)>,
    // The buckets of those for which there was no room in others.
    pub(crate) own: Own,
    // What it is worth to tell rows by all that their matches ask.
    crowds: Crowds,
    // How many places were struck since the first ones were cleared.
    pub(crate) struck: usize,
    // Of how many rows it was made.
    made: usize,
}

impl Index {
    // What is kept of these rows.
    pub(crate) fn of(alloc: Global, rows: &Places) -> Result<Index, OutOfMemory>
        ensures { IfOk result (λ index. Covers index rows.now.entries) }
    {
        let mut crowds = Crowds::new(alloc, rows.len())?;
        let told = told_of(alloc, rows, &mut crowds)?;
        let mut side = None;
        let mut shapes = Vec::new(alloc);
        let mut filled = Vec::with_capacity(alloc, told.len())?;
        let mut own = Own::new(alloc);
        let mut counts = Counts::new(alloc, rows.len())?;
        for row in told {
            let (asks, shared) = crowds.chosen(row.asks);
            side = side.or(asks.side());
            add_shape(&mut shapes, asks.shape(), row.place, row.place)?;
            counts.note(shared);
            let is_full = !counts.are_at_most(ROOM, shared);
            let bucket = own.bucket_for(alloc, asks, shared, is_full)?;
            filled.push((bucket, row.place))?;
        }
        Ok(Index {
            side,
            shapes,
            filled: Filled::of(filled),
            more: BTreeSet::new(alloc),
            own,
            crowds,
            struck: 0,
            made: rows.len(),
        })
    }

    // Adds the place of a row with this match. After `OutOfMemory` all that was covered is.
    pub(crate) fn add(&mut self, alloc: Global, row: &Row, place: u128) -> Result<(), OutOfMemory>
        ensures added { OnOk result (IsCovered row.now place self.new) }
        ensures kept { (r : row_of.Row) (p : ℕ) → IsCovered r p self.old → IsCovered r p self.new }
    {
        let (asks, shared) = self.crowds.join(Asks::of(&row.matching));
        self.add_asks(alloc, asks, shared, place)
    }

    // Adds a place to a bucket of what is asked, with the one that this may share.
    fn add_asks(
        &mut self,
        alloc: Global,
        asks: Asks<'_>,
        shared: u64,
        place: u128,
    ) -> Result<(), OutOfMemory>
        requires { shared ≡ bucket_of asks }
        ensures added { OnOk result (IsFiled asks.entry place self.new) }
        ensures kept { (r : row_of.Row) (p : ℕ) → IsCovered r p self.old → IsCovered r p self.new }
    {
        self.side = self.side.or(asks.side());
        add_shape(&mut self.shapes, asks.shape(), place, 0)?;
        let is_full = self.is_full(shared);
        let bucket = self.own.bucket_for(alloc, asks, shared, is_full)?;
        self.more.insert((bucket, place))?;
        Ok(())
    }

    // Whether it has many more buckets than a table of so many rows needs, or was made of a quarter of them or fewer, by which it is told
    // too little what it is worth to tell rows by.
    pub(crate) fn is_old(&self, rows: usize) -> bool {
        self.own.len() / 2 > rows || rows / 4 >= self.made
    }

    // Whether a bucket has as many places as there is room for, of those that were known at once or of those that came since.
    fn is_full(&self, bucket: u64) -> bool {
        if self.filled.has_more(bucket, usize::from(ROOM - 1)) {
            return true;
        }
        match self.more.range((bucket, 0)..).nth(usize::from(ROOM - 1)) {
            Some((there, _)) => *there == bucket,
            None => false,
        }
    }

    // Strikes the place of a row with this match, where it is there. Other places stay that have rows. It takes no memory.
    pub(crate) fn strike(&mut self, row: &Row, place: u128, rows: &Places)
        requires { NumbersRise rows.now.entries }
        ensures { (r : row_of.Row) (p : ℕ) → Contains rows.now.entries (p, r) → (p ≡ place → ⊥) → IsCovered r p self.old → IsCovered r p self.new }
    {
        let asks = Asks::of(&row.matching);
        self.strike_asked(asks.in_short(), place);
        self.strike_asked(asks, place);
        self.struck = self.struck.saturating_add(1);
        if self.struck > self.filled.len() / 2 {
            self.filled.clear(rows);
            self.struck = 0;
        }
    }

    // Strikes a place from the buckets of what is asked.
    fn strike_asked(&mut self, asks: Asks<'_>, place: u128)
        ensures same { self.new ≡ record self.old { more = self.new.more } }
        ensures others { (b p : ℕ) → (p ≡ place → ⊥) → Contains self.old.more.keys (b, p) → Contains self.new.more.keys (b, p) }
    {
        let shared = asks.bucket();
        self.more.remove(&(shared, place));
        if let Some(bucket) = self.own.bucket(asks.name(), shared, asks.numbers()) {
            self.more.remove(&(bucket, place));
        }
    }

    // The first row that takes the packet.
    pub(crate) fn first<'r, E: PortNames>(
        &self,
        rows: &'r Places,
        packet: &Packet,
        env: &E,
    ) -> Option<&'r Row>
        requires placed { ArePlaced rows.now.entries }
        requires covered { Covers self.now rows.now.entries }
        ensures { option_copied result ≡ find (λ r. holds (E.lookup env.now) packet.now r.matching) (rows_of_places rows.now.entries) }
    {
        let known = known_at(self.side, packet, env);
        let mut best = None;
        for shaped in &self.shapes {
            if is_before(shaped.from, best) {
                best = self.first_in_shape(rows, shaped.shape, known, best, packet, env);
            }
        }
        Some(best?.1)
    }

    // The place of the first row that takes the packet, of those in the buckets of a shape that it is in, where that is before the best so
    // far; else that.
    fn first_in_shape<'r, E: PortNames>(
        &self,
        rows: &'r Places,
        shape: Shape,
        known: Option<Known<'_>>,
        best: Option<Found<'r>>,
        packet: &Packet,
        env: &E,
    ) -> Option<Found<'r>>
        requires placed { ArePlaced rows.now.entries }
        requires taker { IsTaker (E.lookup env.now) packet.now rows.now.entries best }
        requires known { IsKnown known (E.lookup env.now) packet.now }
        ensures taker { IsTaker (E.lookup env.now) packet.now rows.now.entries result }
        ensures kept { (p : ℕ) → IsNoBetter best.entry p → IsNoBetter result p }
        ensures tried { (asks : Asks) (p : ℕ) → shape_of asks ≡ shape → HasAsked asks (E.lookup env.now) packet.now → IsHeld self.now asks p → IsTried (E.lookup env.now) packet.now rows.now.entries result p }
    {
        let numbers = shape.numbers_at(packet);
        match shape.port() {
            None => {
                let wanted = Wanted {
                    bucket: shape.bucket(0, numbers),
                    name: None,
                    numbers,
                };
                self.first_wanted(rows, wanted, best, packet, env)
            }
            Some(side) => {
                let ports = ports_by(known, side, packet, env);
                let one = wanted_by(shape, ports.one, numbers);
                let first = self.first_named(rows, one, best, packet, env);
                let other = wanted_by(shape, ports.other, numbers);
                self.first_named(rows, other, first, packet, env)
            }
        }
    }

    // The same of what is wanted; where nothing is, the best so far.
    fn first_named<'r, E: Env>(
        &self,
        rows: &'r Places,
        wanted: Option<Wanted<'_>>,
        best: Option<Found<'r>>,
        packet: &Packet,
        env: &E,
    ) -> Option<Found<'r>>
        requires placed { ArePlaced rows.now.entries }
        requires taker { IsTaker (E.lookup env.now) packet.now rows.now.entries best }
        ensures taker { IsTaker (E.lookup env.now) packet.now rows.now.entries result }
        ensures kept { (p : ℕ) → IsNoBetter best.entry p → IsNoBetter result p }
        ensures tried { (w : Wanted) (asks : Asks) (p : ℕ) → wanted.entry ≡ Some w → IsWanted w asks → IsHeld self.now asks p → IsTried (E.lookup env.now) packet.now rows.now.entries result p }
    {
        match wanted {
            None => best,
            Some(wanted) => self.first_wanted(rows, wanted, best, packet, env),
        }
    }

    // The same of the bucket that is wanted, and of the one that its name and numbers have of their own.
    #[inline]
    fn first_wanted<'r, E: Env>(
        &self,
        rows: &'r Places,
        wanted: Wanted<'_>,
        best: Option<Found<'r>>,
        packet: &Packet,
        env: &E,
    ) -> Option<Found<'r>>
        requires placed { ArePlaced rows.now.entries }
        requires taker { IsTaker (E.lookup env.now) packet.now rows.now.entries best }
        ensures taker { IsTaker (E.lookup env.now) packet.now rows.now.entries result }
        ensures kept { (p : ℕ) → IsNoBetter best.entry p → IsNoBetter result p }
        ensures tried { (asks : Asks) (p : ℕ) → IsWanted wanted.entry asks → IsHeld self.now asks p → IsTried (E.lookup env.now) packet.now rows.now.entries result p }
    {
        let first = self.first_in_bucket(rows, wanted.bucket, best, packet, env);
        if self.own.is_empty() {
            return first;
        }
        let own = self.own.bucket(wanted.name, wanted.bucket, wanted.numbers);
        match own {
            None => first,
            Some(bucket) => self.first_in_bucket(rows, bucket, first, packet, env),
        }
    }

    // The same of one bucket.
    fn first_in_bucket<'r, E: Env>(
        &self,
        rows: &'r Places,
        bucket: u64,
        best: Option<Found<'r>>,
        packet: &Packet,
        env: &E,
    ) -> Option<Found<'r>>
        requires placed { ArePlaced rows.now.entries }
        requires taker { IsTaker (E.lookup env.now) packet.now rows.now.entries best }
        ensures taker { IsTaker (E.lookup env.now) packet.now rows.now.entries result }
        ensures kept { (p : ℕ) → IsNoBetter best.entry p → IsNoBetter result p }
        ensures tried { (p : ℕ) → IsIn self.now bucket p → IsTried (E.lookup env.now) packet.now rows.now.entries result p }
    {
        let first = self.first_of_filled(rows, bucket, best, packet, env);
        self.first_of_more(rows, bucket, first, packet, env)
    }

    // The same of the places of a bucket that were known at once.
    fn first_of_filled<'r, E: Env>(
        &self,
        rows: &'r Places,
        bucket: u64,
        best: Option<Found<'r>>,
        packet: &Packet,
        env: &E,
    ) -> Option<Found<'r>>
        requires placed { ArePlaced rows.now.entries }
        requires taker { IsTaker (E.lookup env.now) packet.now rows.now.entries best }
        ensures taker { IsTaker (E.lookup env.now) packet.now rows.now.entries result }
        ensures kept { (p : ℕ) → IsNoBetter best.entry p → IsNoBetter result p }
        ensures tried { (p : ℕ) → Contains self.now.filled (bucket, p) → IsTried (E.lookup env.now) packet.now rows.now.entries result p }
    {
        let mut first = best;
        for (there, place) in self.filled.from_bucket(bucket) {
            if *there != bucket || !is_before(*place, first) {
                break;
            }
            first = better(rows, *place, first, packet, env);
        }
        first
    }

    // The same of those that came since.
    fn first_of_more<'r, E: Env>(
        &self,
        rows: &'r Places,
        bucket: u64,
        best: Option<Found<'r>>,
        packet: &Packet,
        env: &E,
    ) -> Option<Found<'r>>
        requires placed { ArePlaced rows.now.entries }
        requires taker { IsTaker (E.lookup env.now) packet.now rows.now.entries best }
        ensures taker { IsTaker (E.lookup env.now) packet.now rows.now.entries result }
        ensures kept { (p : ℕ) → IsNoBetter best.entry p → IsNoBetter result p }
        ensures tried { (p : ℕ) → Contains self.now.more.keys (bucket, p) → IsTried (E.lookup env.now) packet.now rows.now.entries result p }
    {
        if self.more.is_empty() {
            return best;
        }
        let mut first = best;
        for (there, place) in self.more.range((bucket, 0)..) {
            if *there != bucket || !is_before(*place, first) {
                break;
            }
            first = better(rows, *place, first, packet, env);
        }
        first
    }
}

// What is wanted of a shape by a name, where there is one, and by numbers.
#[inline]
fn wanted_by<'n>(shape: Shape, called: Option<Called<'n>>, numbers: Numbers) -> Option<Wanted<'n>>
    ensures { (name : List ℕ) (asks : Asks) → IsCalled called.entry name → name_of asks.port ≡ Some name → bucket_of asks ≡ bucket_by shape (name_bucket name) numbers → numbers_of asks ≡ numbers
        → (w : Wanted) × ((result ≡ Some w) × IsWanted w asks) }
{
    match called {
        Some(called) => Some(Wanted {
            bucket: shape.bucket(called.bucket, numbers),
            name: Some(called.name),
            numbers,
        }),
        None => None,
    }
}

// Whether a place is before that of the best so far, if there is one.
#[inline]
fn is_before(place: u128, best: Option<Found<'_>>) -> bool
    ensures { (IsTrue result → IsNoBetter best.entry place → ⊥) × ((IsTrue result → ⊥) → IsNoBetter best.entry place) }
{
    match best {
        Some((best, _)) => place < best,
        None => true,
    }
}

// A place, where its row takes the packet and it is before the best so far; else that.
#[inline]
fn better<'r, E: Env>(
    rows: &'r Places,
    place: u128,
    best: Option<Found<'r>>,
    packet: &Packet,
    env: &E,
) -> Option<Found<'r>>
    requires placed { ArePlaced rows.now.entries }
    requires taker { IsTaker (E.lookup env.now) packet.now rows.now.entries best }
    ensures taker { IsTaker (E.lookup env.now) packet.now rows.now.entries result }
    ensures kept { (p : ℕ) → IsNoBetter best.entry p → IsNoBetter result p }
    ensures tried { IsTried (E.lookup env.now) packet.now rows.now.entries result place }
{
    if !is_before(place, best) {
        return best;
    }
    match stored_at(rows, place) {
        Some(stored) if stored.takes(packet, env) => Some((place, stored.row())),
        _ => best,
    }
}

// The row at a place, if one is there. On its way it compares each place once, where `get` compares twice.
#[inline]
fn stored_at(rows: &Places, place: u128) -> Option<&Stored>
    ensures { option_copied result ≡ get nat_cmp rows.now place }
{
    match rows.range(place..).next() {
        Some((there, stored)) if *there == place => Some(stored),
        _ => None,
    }
}

// What the matches of these rows ask, which is noted in the crowds.
fn told_of<'r>(
    alloc: Global,
    rows: &'r Places,
    crowds: &mut Crowds,
) -> Result<Vec<Told<'r>>, OutOfMemory>
    ensures { IfOk result (λ told. AreTold told.items rows.now.entries) }
{
    let mut told = Vec::with_capacity(alloc, rows.len())?;
    for (place, stored) in rows.iter() {
        let asks = Asks::of(&stored.row().matching);
        crowds.note(asks);
        told.push(Told {
            place: *place,
            asks,
        })?;
    }
    Ok(told)
}

// Puts a shape last, with a place that is not after this one, unless it is there with such a one.
fn add_shape(
    shapes: &mut Vec<Shaped>,
    shape: Shape,
    place: u128,
    from: u128,
) -> Result<(), OutOfMemory>
    requires { from ≤ place }
    ensures there { OnOk result (HasShape shapes.new.items shape place) }
    ensures kept { (other : Shaped) → Contains shapes.old.items other → Contains shapes.new.items other }
{
    if !has_shape(shapes, shape, place) {
        shapes.push(Shaped { shape, from })?;
    }
    Ok(())
}

// Whether a shape is there with a place that is not after this one.
fn has_shape(shapes: &[Shaped], shape: Shape, place: u128) -> bool
    ensures { IsTrue result → HasShape shapes.now shape place }
{
    for shaped in shapes {
        if shaped.shape.is_same(shape) && shaped.from <= place {
            return true;
        }
    }
    false
}
