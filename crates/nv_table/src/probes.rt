//! What the index of tags is searched by.
ghost use Rattle.std.specs.Prelude.{◌≡◌, ◌<◌, length};
ghost use Rattle.nv_table.specs.Table.{is_after};

use crate::Record;
use nv_base::{Kept, ObjId};
use nv_map::Probe;
use std::cmp::Ordering;

/// The place just below the marks of a tag whose numbers are above the one given, or below all marks of the tag.
#[derive(Drop)]
pub(crate) struct Past<'a, P> {
    pub(crate) tag: &'a P,
    pub(crate) after: Option<ObjId>,
}

impl<'a, T: Ord + Kept + Drop, P: Probe<T>> Probe<(T, ObjId)> for Past<'a, P> {
    ghost use Rattle.nv_map.proofs.Values.{exact_order};
    ghost use Rattle.nv_table.specs.inner.Probes.{past_order, past_parts};

    ghost order = { λ past. past_order (P.order past.tag.now) past.after };

    ghost parts = { λ past. past_parts (P.parts past.tag.now) (exact_order T.eq T.cmp T.Ord.matches_eq T.exact) past.after };

    fn compare(&self, mark: &(T, ObjId)) -> Ordering {
        match self.tag.compare(&mark.0) {
            Ordering::Less => Ordering::Less,
            Ordering::Greater => Ordering::Greater,
            Ordering::Equal => {
                if is_after(self.after, mark.1) {
                    Ordering::Less
                } else {
                    Ordering::Greater
                }
            }
        }
    }
}

// Whether the number is above the one given, where one is given.
fn is_after(after: Option<ObjId>, number: ObjId) -> bool
    ensures { result ≡ is_after after number }
{
    match after {
        None => true,
        Some(low) => low.0 < number.0,
    }
}

/// The mark of a record by one of its tags.
#[derive(Drop)]
pub(crate) struct Own<'a, R: Record> {
    pub(crate) of: &'a R,
    pub(crate) place: usize,
    ghost in_range: { place < length (R.tags of.now) },
}

impl<'a, R: Record> Probe<(R::Tag, ObjId)> for Own<'a, R> {
    ghost use Rattle.std.specs.Prelude.{slice_get};
    ghost use Rattle.nv_table.specs.inner.Probes.{own_order, own_parts};

    ghost order = { λ own. own_order R.Tag.cmp (slice_get (R.tags own.of.now) own.place) (R.number own.of.now) };

    ghost parts = { λ own. own_parts R.Tag.Ord.total (slice_get (R.tags own.of.now) own.place) (R.number own.of.now) };

    fn compare(&self, mark: &(R::Tag, ObjId)) -> Ordering {
        self.of
            .compare_tag(self.place, &mark.0)
            .then(self.of.number().cmp(&mark.1))
    }
}
