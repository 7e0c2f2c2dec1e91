//! The records that have a name, as a table keeps them.
ghost use Rattle.std.specs.Prelude.{◌≡◌, ◌<◌, ◌+◌, length, map, IfOk, slice_get};
ghost use Rattle.nv_table.specs.Table.{order_at};
ghost use Rattle.nb_records.specs.Tags.{tag_cmp, named_tags};

use crate::{AddrSet, Group, Lb, Named, Numbers, Router, Switch, Tag};
use nv_base::{Items, Kept, Name, ObjId, OutOfMemory};
use nv_map::Probe;
use nv_table::Record;
use std::alloc::Global;
use std::cmp::Ordering;

// A name, and what is listed.
fn named_tags(alloc: Global, name: &Name, listed: &[ObjId]) -> Result<Items<Tag>, OutOfMemory>
    ensures { IfOk result (λ tags. tags ≡ named_tags name.now listed.now) }
{
    let mut tags = Items::new(alloc);
    tags.push(Tag::Named(name.copy(alloc)?))?;
    for object in listed {
        tags.push(Tag::Lists(*object))?;
    }
    Ok(tags)
}

// The same of a group, which has its ports in blocks.
fn group_tags(alloc: Global, name: &Name, ports: &Numbers) -> Result<Items<Tag>, OutOfMemory>
    ensures { IfOk result (λ tags. tags ≡ named_tags name.now ports.now) }
{
    let mut tags = Items::with_capacity(alloc, ports.len() + 1)?;
    tags.push(Tag::Named(name.copy(alloc)?))?;
    for at in 0..ports.len() {
        tags.push(Tag::Lists(ports.number_at(at)))?;
    }
    Ok(tags)
}

// How many tags that are.
fn named_count(listed: &[ObjId]) -> usize
    ensures { result ≡ length listed.now + 1 }
{
    listed.len() + 1
}

// How the one at a place compares with another tag.
fn compare_named(name: &Name, listed: &[ObjId], place: usize, tag: &Tag) -> Ordering
    requires { place < length (named_tags name.now listed.now) }
    ensures { result ≡ order_at tag_cmp (slice_get (named_tags name.now listed.now) place) tag.now }
{
    if place == 0 {
        Named(name.as_slice()).compare(tag)
    } else {
        Tag::Lists(listed[place - 1]).cmp(tag)
    }
}

impl Record for Switch {
    ghost use Rattle.nb_records.specs.Tags.{switch_tags};

    type Tag = Tag;

    ghost number = { λ r. r.id };

    ghost tags = { switch_tags };

    ghost weight = { λ _. (0, 0) };

    fn number(&self) -> ObjId {
        self.id
    }

    fn tags(&self, alloc: Global) -> Result<Items<Tag>, OutOfMemory> {
        named_tags(alloc, &self.name, self.lbs.as_slice())
    }

    fn tag_count(&self) -> usize {
        named_count(self.lbs.as_slice())
    }

    fn compare_tag(&self, place: usize, tag: &Tag) -> Ordering {
        compare_named(&self.name, self.lbs.as_slice(), place, tag)
    }

    fn weight(&self) -> (u64, u64) {
        (0, 0)
    }
}

impl Record for Router {
    ghost use Rattle.nb_records.specs.Tags.{router_tags};

    type Tag = Tag;

    ghost number = { λ r. r.id };

    ghost tags = { router_tags };

    ghost weight = { λ _. (0, 0) };

    fn number(&self) -> ObjId {
        self.id
    }

    fn tags(&self, alloc: Global) -> Result<Items<Tag>, OutOfMemory> {
        named_tags(alloc, &self.name, self.lbs.as_slice())
    }

    fn tag_count(&self) -> usize {
        named_count(self.lbs.as_slice())
    }

    fn compare_tag(&self, place: usize, tag: &Tag) -> Ordering {
        compare_named(&self.name, self.lbs.as_slice(), place, tag)
    }

    fn weight(&self) -> (u64, u64) {
        (0, 0)
    }
}

impl Record for Lb {
    ghost use Rattle.nb_records.specs.Tags.{lb_tags};

    type Tag = Tag;

    ghost number = { λ r. r.id };

    ghost tags = { lb_tags };

    ghost weight = { λ _. (0, 0) };

    fn number(&self) -> ObjId {
        self.id
    }

    fn tags(&self, alloc: Global) -> Result<Items<Tag>, OutOfMemory> {
        named_tags(alloc, &self.name, &[])
    }

    fn tag_count(&self) -> usize {
        named_count(&[])
    }

    fn compare_tag(&self, place: usize, tag: &Tag) -> Ordering {
        compare_named(&self.name, &[], place, tag)
    }

    fn weight(&self) -> (u64, u64) {
        (0, 0)
    }
}

impl Record for AddrSet {
    ghost use Rattle.nb_records.specs.Tags.{set_tags};

    type Tag = Tag;

    ghost number = { λ r. r.id };

    ghost tags = { set_tags };

    ghost weight = { λ r. (length r.members, 0) };

    fn number(&self) -> ObjId {
        self.id
    }

    fn tags(&self, alloc: Global) -> Result<Items<Tag>, OutOfMemory> {
        named_tags(alloc, &self.name, &[])
    }

    fn tag_count(&self) -> usize {
        named_count(&[])
    }

    fn compare_tag(&self, place: usize, tag: &Tag) -> Ordering {
        compare_named(&self.name, &[], place, tag)
    }

    fn weight(&self) -> (u64, u64) {
        (self.members.as_slice().len() as u64, 0)
    }
}

impl Record for Group {
    ghost use Rattle.nb_records.specs.Tags.{group_tags};

    type Tag = Tag;

    ghost number = { λ r. r.id };

    ghost tags = { group_tags };

    ghost weight = { λ r. (length r.ports, 0) };

    fn number(&self) -> ObjId {
        self.id
    }

    fn tags(&self, alloc: Global) -> Result<Items<Tag>, OutOfMemory> {
        group_tags(alloc, &self.name, &self.ports)
    }

    fn tag_count(&self) -> usize {
        self.ports.len() + 1
    }

    fn compare_tag(&self, place: usize, tag: &Tag) -> Ordering {
        if place == 0 {
            Named(self.name.as_slice()).compare(tag)
        } else {
            Tag::Lists(self.ports.number_at(place - 1)).cmp(tag)
        }
    }

    fn weight(&self) -> (u64, u64) {
        (self.ports.len() as u64, 0)
    }
}
