//! The marks of records: a tag, and the number of a record that has it.
ghost use Rattle.std.specs.Prelude.{◌≡◌, IfOk, None, IsSome, slice_get};
ghost use Rattle.std.specs.Ordering.{is_eq};
ghost use Rattle.nv_map.specs.Map.{KeysRise, value_at, with_entry};
ghost use Rattle.nv_table.specs.inner.Index.{is_mark_of, mark_cmp, HasMarks, AreApart, IsLeft, IsMoved};
ghost use Rattle.nv_table.specs.inner.Probes.{own_order};

use crate::Record;
use crate::probes::Own;
use nv_base::{Kept, ObjId, OutOfMemory};
use nv_map::{Entry, Map};
use std::alloc::Global;

/// The marks of records, each with its room.
pub(crate) type Marks<R> = Map<(<R as Record>::Tag, ObjId), ()>;

/// The marks of a record.
pub(crate) fn marks_of<R: Record>(alloc: Global, record: &R) -> Result<Marks<R>, OutOfMemory>
    ensures rise { IfOk result (λ marks. KeysRise (mark_cmp R.Tag.cmp) marks) }
    ensures marked { IfOk result (λ marks. HasMarks R.Tag.cmp (is_mark_of R.number R.tags R.Tag.cmp «record».now) marks) }
{
    let number = record.number();
    let mut marks = Map::new();
    for tag in record.tags(alloc)?.into_items() {
        put_once(&mut marks, Entry::new(alloc, (tag, number), ())?);
    }
    Ok(marks)
}

// Puts a mark in, where it is not there yet.
fn put_once<K: Ord + Kept + Drop>(marks: &mut Map<K, ()>, mark: Entry<K, ()>)
    ensures new { value_at K.cmp mark.0 marks.old ≡ None → marks.new ≡ with_entry K.cmp mark marks.old }
    ensures again { IsSome (value_at K.cmp mark.0 marks.old) → marks.new ≡ marks.old }
    ensures rise { KeysRise K.cmp marks.new }
{
    if marks.get(mark.key()).is_none() {
        marks.put(mark);
    }
}

/// Moves the marks of a record, with their room.
pub(crate) fn move_marks<R: Record>(record: &R, from: &mut Marks<R>, to: &mut Marks<R>)
    requires from { KeysRise (mark_cmp R.Tag.cmp) from.old }
    requires to { KeysRise (mark_cmp R.Tag.cmp) to.old }
    requires apart { AreApart R.Tag.cmp from.old to.old }
    ensures from_rise { KeysRise (mark_cmp R.Tag.cmp) from.new }
    ensures to_rise { KeysRise (mark_cmp R.Tag.cmp) to.new }
    ensures left { IsLeft R.Tag.cmp (is_mark_of R.number R.tags R.Tag.cmp «record».now) from.old from.new }
    ensures moved { IsMoved R.Tag.cmp (is_mark_of R.number R.tags R.Tag.cmp «record».now) from.old to.old to.new }
{
    for place in 0..record.tag_count() {
        move_mark(&Own { of: record, place }, from, to);
    }
}

/// Moves one mark of a record, where it is there.
pub(crate) fn move_mark<R: Record>(own: &Own<R>, from: &mut Marks<R>, to: &mut Marks<R>)
    requires from { KeysRise (mark_cmp R.Tag.cmp) from.old }
    requires to { KeysRise (mark_cmp R.Tag.cmp) to.old }
    requires apart { AreApart R.Tag.cmp from.old to.old }
    ensures from_rise { KeysRise (mark_cmp R.Tag.cmp) from.new }
    ensures to_rise { KeysRise (mark_cmp R.Tag.cmp) to.new }
    ensures left { IsLeft R.Tag.cmp (λ mark. is_eq (own_order R.Tag.cmp (slice_get (R.tags own.now.of.now) own.now.place) (R.number own.now.of.now) mark)) from.old from.new }
    ensures moved { IsMoved R.Tag.cmp (λ mark. is_eq (own_order R.Tag.cmp (slice_get (R.tags own.now.of.now) own.now.place) (R.number own.now.of.now) mark)) from.old to.old to.new }
{
    if let Some(entry) = from.take_by(own) {
        to.put(entry);
    }
}
