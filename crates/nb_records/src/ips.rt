//! The tags that tell the IPv4 addresses of a port of a switch.
ghost use Rattle.std.specs.Prelude.{◌≡◌, ◌++◌, ◌<◌, ◌≤◌, length, map, MatchOption, OnOk, slice_get};
ghost use Rattle.std.specs.List.{flat_map};
ghost use Rattle.nv_table.specs.Table.{order_at};
ghost use Rattle.nb_records.specs.Tags.{ips_of, ip_tags, most_told, tag_cmp};
ghost use Rattle.nb_records.specs.declared.tag.Tag.TheVariants as tag;

use crate::{Addr, Tag};
use nv_base::{Ip4, Items, OutOfMemory};
use std::cmp::Ordering;

// The most IPv4 addresses of a port that are told one by one.
const MOST_TOLD: usize = 256;

/// Appends the tags of these addresses.
#[tactic(auto, using(crate::proofs::Told::told, crate::proofs::Told::untold))]
pub(crate) fn push_ip_tags(tags: &mut Items<Tag>, addresses: &[Addr]) -> Result<(), OutOfMemory>
    ensures { OnOk result (tags.new ≡ tags.old ++ ip_tags (flat_map ips_of addresses.now)) }
{
    if told(addresses).is_none() {
        return tags.push(Tag::HasMany);
    }
    for addr in addresses {
        push_ips(tags, ips_of(addr))?;
    }
    Ok(())
}

/// How many tags that are.
#[tactic(auto, using(crate::proofs::Told::told_count, crate::proofs::Told::untold))]
pub(crate) fn ip_tag_count(addresses: &[Addr]) -> usize
    ensures count { result ≡ length (ip_tags (flat_map ips_of addresses.now)) }
    ensures within { result ≤ most_told }
{
    match told(addresses) {
        Some(count) => count,
        None => 1,
    }
}

/// How the one at a place compares with another tag.
pub(crate) fn compare_ip_tag(addresses: &[Addr], place: usize, tag: &Tag) -> Ordering
    requires { place < length (ip_tags (flat_map ips_of addresses.now)) }
    ensures { result ≡ order_at tag_cmp (slice_get (ip_tags (flat_map ips_of addresses.now)) place) tag.now }
{
    if told(addresses).is_none() {
        return Tag::HasMany.cmp(tag);
    }
    match ip_at(addresses, place) {
        Some(ip) => Tag::Has(ip).cmp(tag),
        None => unreachable!(),
    }
}

// How many IPv4 addresses there are, where they are told one by one.
fn told(addresses: &[Addr]) -> Option<usize>
    ensures { MatchOption result (most_told < length (flat_map ips_of addresses.now)) (λ count. (count ≡ length (flat_map ips_of addresses.now)) × (count ≤ most_told)) }
{
    let mut count = 0;
    for addr in addresses {
        let more = ips_of(addr).len();
        if more > MOST_TOLD - count {
            return None;
        }
        count += more;
    }
    Some(count)
}

// The IPv4 address at a place.
fn ip_at(addresses: &[Addr], mut place: usize) -> Option<Ip4>
    ensures { result ≡ slice_get (flat_map ips_of addresses.now) place }
{
    for addr in addresses {
        let ips = ips_of(addr);
        if place < ips.len() {
            return Some(ips[place]);
        }
        place -= ips.len();
    }
    None
}

// Appends a tag for each address.
fn push_ips(tags: &mut Items<Tag>, ips: &[Ip4]) -> Result<(), OutOfMemory>
    ensures { OnOk result (tags.new ≡ tags.old ++ map tag.Has ips.now) }
{
    for ip in ips {
        tags.push(Tag::Has(*ip))?;
    }
    Ok(())
}

// The IPv4 addresses of an address of a port.
fn ips_of(addr: &Addr) -> &[Ip4]
    ensures { result.now ≡ ips_of addr.now }
{
    match addr {
        Addr::Unknown | Addr::Router => &[],
        Addr::Host { ips, .. } => ips.as_slice(),
    }
}
