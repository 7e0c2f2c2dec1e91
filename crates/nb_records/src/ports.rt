//! Ports as a table keeps them.
ghost use Rattle.std.specs.Prelude.{◌≡◌, ◌<◌, ◌∷◌, [], length, slice_get, IfOk};
ghost use Rattle.std.specs.List.{flat_map};
ghost use Rattle.nv_table.specs.Table.{order_at};
ghost use Rattle.nb_records.specs.Tags.{ips_of, ip_tags, tag_cmp};
ghost use Rattle.nb_records.specs.declared.tag.Tag.TheVariants as tag_of;

use crate::ips::{compare_ip_tag, ip_tag_count, push_ip_tags};
use crate::weights::{address_weight, security_weight};
use crate::{Addr, Named, Names, Port, PortKind, RouterPort, Tag};
use nv_base::{Items, Kept, Name, ObjId, OutOfMemory};
use nv_map::Probe;
use nv_table::Record;
use std::alloc::Global;
use std::cmp::Ordering;

// A name, and the switch or the router of a port.
fn place_tags(alloc: Global, name: &Name, owner: ObjId) -> Result<Items<Tag>, OutOfMemory>
    ensures { IfOk result (λ tags. tags ≡ tag_of.Named name.now ∷ tag_of.Of owner ∷ []) }
{
    let named = Tag::Named(name.copy(alloc)?);
    let mut tags = Items::new(alloc);
    tags.push(named)?;
    tags.push(Tag::Of(owner))?;
    Ok(tags)
}

// How the tag at a place, of the name of a peer and those of the addresses, compares with another one.
fn compare_after_name(name: &Name, addresses: &[Addr], place: usize, tag: &Tag) -> Ordering
    requires { place < length (tag_of.Names name.now ∷ ip_tags (flat_map ips_of addresses.now)) }
    ensures { result ≡ order_at tag_cmp (slice_get (tag_of.Names name.now ∷ ip_tags (flat_map ips_of addresses.now)) place) tag.now }
{
    if place == 0 {
        Names(name).compare(tag)
    } else {
        compare_ip_tag(addresses, place - 1, tag)
    }
}

impl Record for Port {
    ghost use Rattle.nb_records.specs.Tags.{port_tags, port_weight};

    type Tag = Tag;

    ghost number = { λ r. r.id };

    ghost tags = { port_tags };

    ghost weight = { port_weight };

    fn number(&self) -> ObjId {
        self.id
    }

    fn tags(&self, alloc: Global) -> Result<Items<Tag>, OutOfMemory> {
        let mut tags = place_tags(alloc, &self.name, self.switch)?;
        if let (PortKind::Router, Some(name)) = (self.kind, &self.router_port) {
            tags.push(Tag::Names(name.copy(alloc)?))?;
        }
        push_ip_tags(&mut tags, self.addresses.as_slice())?;
        Ok(tags)
    }

    fn tag_count(&self) -> usize {
        let count = ip_tag_count(self.addresses.as_slice());
        match (self.kind, &self.router_port) {
            (PortKind::Router, Some(_)) => 3 + count,
            _ => 2 + count,
        }
    }

    fn compare_tag(&self, place: usize, tag: &Tag) -> Ordering {
        match place {
            0 => Named(self.name.as_slice()).compare(tag),
            1 => Tag::Of(self.switch).cmp(tag),
            _ => match (self.kind, &self.router_port) {
                (PortKind::Router, Some(name)) => {
                    compare_after_name(name, self.addresses.as_slice(), place - 2, tag)
                }
                _ => compare_ip_tag(self.addresses.as_slice(), place - 2, tag),
            },
        }
    }

    fn weight(&self) -> (u64, u64) {
        (
            address_weight(self.addresses.as_slice()),
            security_weight(self.security.as_slice()),
        )
    }
}

impl Record for RouterPort {
    ghost use Rattle.nb_records.specs.Tags.{router_port_tags};

    type Tag = Tag;

    ghost number = { λ r. r.id };

    ghost tags = { router_port_tags };

    ghost weight = { λ r. (length r.nets, 0) };

    fn number(&self) -> ObjId {
        self.id
    }

    fn tags(&self, alloc: Global) -> Result<Items<Tag>, OutOfMemory> {
        place_tags(alloc, &self.name, self.router)
    }

    fn tag_count(&self) -> usize {
        2
    }

    fn compare_tag(&self, place: usize, tag: &Tag) -> Ordering {
        if place == 0 {
            Named(self.name.as_slice()).compare(tag)
        } else {
            Tag::Of(self.router).cmp(tag)
        }
    }

    fn weight(&self) -> (u64, u64) {
        (self.nets.as_slice().len() as u64, 0)
    }
}
