//! The order of rows by their matches, which are ordered by their texts. Of these as little is written as tells the order.
ghost use Rattle.std.specs.Prelude.{◌≡◌, ◌≤◌, ◌++◌, ℕ, List, length, true, false, take, IfOk, IfSome, IsTrue, OnErr, OnOk};
ghost use Rattle.std.specs.Cmp.Lexicographic.{slice_cmp};
ghost use Rattle.std.specs.List.Sorted.{IsPartitionPoint};
ghost use Rattle.std.specs.Ordering.{is_gt, is_le, nat_cmp};
ghost use Rattle.expr_core.specs.Formula.{formulas};
ghost use Rattle.expr_core.specs.Formula.Formula.{And};
ghost use Rattle.expr_core.specs.Text.{is_joined, typed_text};
ghost use Rattle.sb_rows.specs.Row.{IsInRowOrder, put_row, row_cmp};
ghost use Rattle.sb_rows.specs.inner.ByText.{AreInTexts, AreUnjoined};

use crate::stored::Stored;
use expr_core::{Node, Typed, put_tree};
use nv_base::OutOfMemory;
use std::alloc::Global;
use std::cmp::Ordering;

// So many bytes most texts of matches have at most.
const MOST_TEXTS: usize = 128;

// Rooms to write the texts of two matches in.
#[derive(Drop)]
pub(crate) struct Rooms {
    one: Vec<u8>,
    other: Vec<u8>,
}

impl Rooms {
    // It takes no memory.
    pub(crate) fn new(alloc: Global) -> Self {
        Rooms {
            one: Vec::new(alloc),
            other: Vec::new(alloc),
        }
    }

    // Writes the texts of two matches.
    fn write(&mut self, one: &Typed, other: &Typed) -> Result<(), OutOfMemory>
        ensures one { OnOk result (self.new.one.items ≡ typed_text one.now) }
        ensures other { OnOk result (self.new.other.items ≡ typed_text other.now) }
    {
        write_text(&mut self.one, one)?;
        write_text(&mut self.other, other)
    }

    // Whether neither text begins with the other, so that whatever follows them does not count for their order.
    fn are_apart(&self) -> bool
        ensures { IsTrue result → (rest more : List ℕ) → slice_cmp nat_cmp (self.now.one.items ++ rest) (self.now.other.items ++ more) ≡ slice_cmp nat_cmp self.now.one.items self.now.other.items }
    {
        let one = self.one.as_slice();
        let other = self.other.as_slice();
        !one.starts_with(other) && !other.starts_with(one)
    }

    // The order of the texts that are written.
    fn order(&self) -> Ordering
        ensures { result ≡ slice_cmp nat_cmp self.now.one.items self.now.other.items }
    {
        self.one.as_slice().cmp(self.other.as_slice())
    }

    // The order of two matches by their texts. Of conjunctions that are alike up to an atom, only those atoms are written, if that tells it.
    fn match_order(&mut self, one: &Typed, other: &Typed) -> Result<Ordering, OutOfMemory>
        ensures { IfOk result (λ order. order ≡ slice_cmp nat_cmp (typed_text one.now) (typed_text other.now)) }
    {
        if let Some((first, second)) = first_unlike(one, other) {
            self.write(first, second)?;
            if self.are_apart() {
                return Ok(self.order());
            }
        }
        self.write(one, other)?;
        Ok(self.order())
    }

    // Whether a row comes after another.
    pub(crate) fn is_after(&mut self, there: &Stored, row: &Stored) -> Result<bool, OutOfMemory>
        ensures { IfOk result (λ after. after ≡ is_gt (row_cmp there.now row.now)) }
    {
        match there.key_order(row) {
            Ordering::Less => Ok(false),
            Ordering::Greater => Ok(true),
            Ordering::Equal => {
                let order = self.match_order(&there.row().matching, &row.row().matching)?;
                Ok(order.is_gt())
            }
        }
    }
}

// Writes the text of a match in the place of what is there.
fn write_text(room: &mut Vec<u8>, matching: &Typed) -> Result<(), OutOfMemory>
    ensures { OnOk result (room.new.items ≡ typed_text matching.now) }
{
    room.clear();
    room.reserve(MOST_TEXTS)?;
    put_tree(room, matching)
}

// The first operands in which two conjunctions differ, where these are atoms.
fn first_unlike<'a>(one: &'a Typed, other: &'a Typed) -> Option<(&'a Typed, &'a Typed)>
    ensures { IfSome result (λ pair. AreInTexts pair.0.now pair.1.now one.now other.now) }
{
    match (&one.node, &other.node) {
        (Node::And(ones), Node::And(others)) => unlike_operands(ones, others),
        _ => None,
    }
}

// The first two operands that differ, where these are atoms.
fn unlike_operands<'a>(ones: &'a [Typed], others: &'a [Typed]) -> Option<(&'a Typed, &'a Typed)>
    ensures { IfSome result (λ pair. AreInTexts pair.0.now pair.1.now (And (formulas ones.now)) (And (formulas others.now))) }
{
    for at in 0..ones.len().min(others.len()) {
        let one = &ones[at];
        let other = &others[at];
        if !is_same(one, other) {
            return if are_atoms(one, other) {
                Some((one, other))
            } else {
                None
            };
        }
    }
    None
}

// Whether two matches are one.
fn is_same(one: &Typed, other: &Typed) -> bool
    ensures { IsTrue result → one.now ≡ other.now }
{
    one == other
}

// Whether two matches are atoms.
fn are_atoms(one: &Typed, other: &Typed) -> bool
    ensures { IsTrue result → AreUnjoined one.now other.now }
{
    matches!((&one.node, &other.node), (Node::Atom(_), Node::Atom(_)))
}

// Where a row goes among rows in order: after all that are not after it. Rows mostly come in order, so the last one is looked at first.
pub(crate) fn place_among(
    rows: &[Stored],
    row: &Stored,
    rooms: &mut Rooms,
) -> Result<usize, OutOfMemory>
    requires { IsInRowOrder rows.now }
    ensures bound { IfOk result (λ at. at ≤ length rows.now) }
    ensures point { IfOk result (λ at. IsPartitionPoint (λ y. is_le (row_cmp y row.now) ≡ true) (λ y. is_le (row_cmp y row.now) ≡ false) rows.now at) }
{
    let mut low = 0;
    let mut high = rows.len();
    let mut middle = high.saturating_sub(1);
    while low < high {
        if rooms.is_after(&rows[middle], row)? {
            high = middle;
        } else {
            low = middle + 1;
        }
        middle = low + (high - low) / 2;
    }
    Ok(low)
}

// Puts a row in its place among rows in order. After `OutOfMemory` they are as before.
pub(crate) fn put_in_place(
    rows: &mut Vec<Stored>,
    row: Stored,
    rooms: &mut Rooms,
) -> Result<(), OutOfMemory>
    requires { IsInRowOrder rows.old.items }
    ensures ok { OnOk result (rows.new.items ≡ put_row row rows.old.items) }
    ensures err { OnErr result (rows.new.items ≡ rows.old.items) }
{
    match place_among(rows, &row, rooms) {
        Ok(at) => {
            rows.insert(at, row)?;
            Ok(())
        }
        Err(failed) => {
            drop(row);
            Err(failed)
        }
    }
}
