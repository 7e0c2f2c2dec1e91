//! Records that list one number more, or one less, than others.
ghost use Rattle.std.specs.Prelude.{◌≡◌, ◌<◌, Some, length, IfOk, slice_get};
ghost use Rattle.std.specs.List.{list_any};
ghost use Rattle.nb_records.specs.Longer.{same_number, lists_more, named_longer};
ghost use Rattle.nb_records.specs.Tags.{named_tags};

use crate::{Group, Numbers, Router, Switch, Tag};
use nv_base::{Kept, Name, ObjId, OutOfMemory};
use nv_table::Listing;
use std::alloc::Global;

// Whether a number is listed.
fn is_listed(number: ObjId, listed: &[ObjId]) -> bool
    ensures { result ≡ list_any (same_number number) listed.now }
{
    listed.iter().any(|other| number == *other)
}

// Whether a list has the numbers of another one, and at this place one more, which the other has not.
fn lists_more(longer: &[ObjId], shorter: &[ObjId], at: usize) -> bool
    ensures { result ≡ lists_more longer.now shorter.now at }
{
    let Some(number) = longer.get(at) else {
        return false;
    };
    longer.len() == shorter.len() + 1
        && longer[..at] == shorter[..at]
        && longer[at + 1..] == shorter[at..]
        && !is_listed(*number, shorter)
}

// The same of records with a name, whose tag comes first.
fn named_longer(name: &Name, listed: &[ObjId], other: &Name, others: &[ObjId], place: usize) -> bool
    ensures { result ≡ named_longer name.now listed.now other.now others.now place }
{
    place > 0 && name == other && lists_more(listed, others, place - 1)
}

// The place of the first number that another list has not at its place.
fn first_difference(listed: &[ObjId], others: &[ObjId]) -> usize {
    listed
        .iter()
        .zip(others.iter())
        .take_while(|(own, other)| own == other)
        .count()
        .saturating_add(1)
}

// The tag at a place.
fn named_tag(alloc: Global, name: &Name, listed: &[ObjId], place: usize) -> Result<Tag, OutOfMemory>
    requires { place < length (named_tags name.now listed.now) }
    ensures { IfOk result (λ tag. slice_get (named_tags name.now listed.now) place ≡ Some tag) }
{
    if place == 0 {
        Ok(Tag::Named(name.copy(alloc)?))
    } else {
        Ok(Tag::Lists(listed[place - 1]))
    }
}

// The same of the ports of groups, which are compared run by run.
fn ports_more(longer: &Numbers, shorter: &Numbers, at: usize) -> bool
    ensures { result ≡ lists_more longer.now shorter.now at }
{
    if at >= longer.len() || longer.len() != shorter.len() + 1 {
        return false;
    }
    longer.agrees(0, shorter, 0, at)
        && longer.agrees(at + 1, shorter, at, shorter.len() - at)
        && !shorter.has_from(longer.number_at(at), 0)
}

// The place of the first port that another group has not at its place.
fn first_other_port(listed: &Numbers, others: &Numbers) -> usize {
    let mut at = 0;
    while at < listed.len() && listed.get(at) == others.get(at) {
        at += 1;
    }
    at.saturating_add(1)
}

impl Listing for Switch {
    ghost use Rattle.nb_records.specs.Longer.{switch_longer};
    ghost use Rattle.nb_records.specs.inner.OneMore.{switch_is_longer};

    ghost is_longer = { switch_longer };

    ghost longer = { switch_is_longer };

    fn is_longer(&self, other: &Self, place: usize) -> bool {
        named_longer(
            &self.name,
            self.lbs.as_slice(),
            &other.name,
            other.lbs.as_slice(),
            place,
        )
    }

    fn first_difference(&self, other: &Self) -> usize {
        first_difference(self.lbs.as_slice(), other.lbs.as_slice())
    }

    fn tag(&self, alloc: Global, place: usize) -> Result<Tag, OutOfMemory> {
        named_tag(alloc, &self.name, self.lbs.as_slice(), place)
    }
}

impl Listing for Router {
    ghost use Rattle.nb_records.specs.Longer.{router_longer};
    ghost use Rattle.nb_records.specs.inner.OneMore.{router_is_longer};

    ghost is_longer = { router_longer };

    ghost longer = { router_is_longer };

    fn is_longer(&self, other: &Self, place: usize) -> bool {
        named_longer(
            &self.name,
            self.lbs.as_slice(),
            &other.name,
            other.lbs.as_slice(),
            place,
        )
    }

    fn first_difference(&self, other: &Self) -> usize {
        first_difference(self.lbs.as_slice(), other.lbs.as_slice())
    }

    fn tag(&self, alloc: Global, place: usize) -> Result<Tag, OutOfMemory> {
        named_tag(alloc, &self.name, self.lbs.as_slice(), place)
    }
}

impl Listing for Group {
    ghost use Rattle.nb_records.specs.Longer.{group_longer};
    ghost use Rattle.nb_records.specs.inner.OneMore.{group_is_longer};

    ghost is_longer = { group_longer };

    ghost longer = { group_is_longer };

    fn is_longer(&self, other: &Self, place: usize) -> bool {
        place > 0 && self.name == other.name && ports_more(&self.ports, &other.ports, place - 1)
    }

    fn first_difference(&self, other: &Self) -> usize {
        first_other_port(&self.ports, &other.ports)
    }

    fn tag(&self, alloc: Global, place: usize) -> Result<Tag, OutOfMemory> {
        if place == 0 {
            Ok(Tag::Named(self.name.copy(alloc)?))
        } else {
            Ok(Tag::Lists(self.ports.number_at(place - 1)))
        }
    }
}
