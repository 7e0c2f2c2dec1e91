//! The records that belong to another one and have no name, as a table keeps them.
ghost use Rattle.std.specs.Prelude.{◌≡◌, ◌<◌, length, IfOk, slice_get};
ghost use Rattle.nv_table.specs.Table.{order_at};
ghost use Rattle.nb_records.specs.Tags.{tag_cmp, owned_tags, route_rule, acl_rule, nat_rule};

use crate::{Acl, Binding, Nat, NatKind, Route, Rule, Tag};
use expr_digest::digest_of;
use nv_base::{Items, ObjId, OutOfMemory};
use nv_table::Record;
use std::alloc::Global;
use std::cmp::Ordering;

// What a record belongs to, and what it says of that.
fn owned_tags(alloc: Global, owner: ObjId, rule: Rule) -> Result<Items<Tag>, OutOfMemory>
    ensures { IfOk result (λ tags. tags ≡ owned_tags owner rule) }
{
    let mut tags = Items::new(alloc);
    tags.push(Tag::Of(owner))?;
    tags.push(Tag::Says(owner, rule))?;
    Ok(tags)
}

// How the one at a place compares with another tag.
fn compare_owned(owner: ObjId, rule: Rule, place: usize, tag: &Tag) -> Ordering
    requires { place < length (owned_tags owner rule) }
    ensures { result ≡ order_at tag_cmp (slice_get (owned_tags owner rule) place) tag.now }
{
    if place == 0 {
        Tag::Of(owner).cmp(tag)
    } else {
        Tag::Says(owner, rule).cmp(tag)
    }
}

// What a route says of its router.
fn route_rule(route: &Route) -> Rule
    ensures { result ≡ route_rule route.now }
{
    Rule::Route {
        by: route.by,
        base: route.prefix.base,
        len: route.prefix.len,
    }
}

// What an ACL says of its owner.
fn acl_rule(acl: &Acl) -> Rule
    ensures { result ≡ acl_rule acl.now }
{
    Rule::Acl {
        way: acl.way,
        priority: acl.priority,
        digest: digest_of(&acl.matching),
    }
}

// What a NAT rule says of its router.
fn nat_rule(nat: &Nat) -> Rule
    ensures { result ≡ nat_rule nat.now }
{
    match nat.kind {
        NatKind::Snat => Rule::Snat {
            base: nat.logical.base,
            len: nat.logical.len,
        },
        NatKind::Dnat | NatKind::DnatAndSnat => Rule::Dnat(nat.external),
    }
}

impl Record for Route {
    ghost use Rattle.nb_records.specs.Tags.{route_tags};

    type Tag = Tag;

    ghost number = { λ r. r.id };

    ghost tags = { route_tags };

    ghost weight = { λ _. (0, 0) };

    fn number(&self) -> ObjId {
        self.id
    }

    fn tags(&self, alloc: Global) -> Result<Items<Tag>, OutOfMemory> {
        owned_tags(alloc, self.router, route_rule(self))
    }

    fn tag_count(&self) -> usize {
        2
    }

    fn compare_tag(&self, place: usize, tag: &Tag) -> Ordering {
        compare_owned(self.router, route_rule(self), place, tag)
    }

    fn weight(&self) -> (u64, u64) {
        (0, 0)
    }
}

impl Record for Nat {
    ghost use Rattle.nb_records.specs.Tags.{nat_tags};

    type Tag = Tag;

    ghost number = { λ r. r.id };

    ghost tags = { nat_tags };

    ghost weight = { λ _. (0, 0) };

    fn number(&self) -> ObjId {
        self.id
    }

    fn tags(&self, alloc: Global) -> Result<Items<Tag>, OutOfMemory> {
        owned_tags(alloc, self.router, nat_rule(self))
    }

    fn tag_count(&self) -> usize {
        2
    }

    fn compare_tag(&self, place: usize, tag: &Tag) -> Ordering {
        compare_owned(self.router, nat_rule(self), place, tag)
    }

    fn weight(&self) -> (u64, u64) {
        (0, 0)
    }
}

impl Record for Acl {
    ghost use Rattle.nb_records.specs.Tags.{acl_tags};

    type Tag = Tag;

    ghost number = { λ r. r.id };

    ghost tags = { acl_tags };

    ghost weight = { λ _. (0, 0) };

    fn number(&self) -> ObjId {
        self.id
    }

    fn tags(&self, alloc: Global) -> Result<Items<Tag>, OutOfMemory> {
        owned_tags(alloc, self.owner, acl_rule(self))
    }

    fn tag_count(&self) -> usize {
        2
    }

    fn compare_tag(&self, place: usize, tag: &Tag) -> Ordering {
        // The rule is made where it is compared: its digest goes through the whole match.
        if place == 0 {
            Tag::Of(self.owner).cmp(tag)
        } else {
            Tag::Says(self.owner, acl_rule(self)).cmp(tag)
        }
    }

    fn weight(&self) -> (u64, u64) {
        (0, 0)
    }
}

impl Record for Binding {
    ghost use Rattle.nb_records.specs.Tags.{binding_tags};

    type Tag = Tag;

    ghost number = { λ r. r.id };

    ghost tags = { binding_tags };

    ghost weight = { λ _. (0, 0) };

    fn number(&self) -> ObjId {
        self.id
    }

    fn tags(&self, alloc: Global) -> Result<Items<Tag>, OutOfMemory> {
        owned_tags(alloc, self.port, Rule::Binding(self.addr))
    }

    fn tag_count(&self) -> usize {
        2
    }

    fn compare_tag(&self, place: usize, tag: &Tag) -> Ordering {
        compare_owned(self.port, Rule::Binding(self.addr), place, tag)
    }

    fn weight(&self) -> (u64, u64) {
        (0, 0)
    }
}
