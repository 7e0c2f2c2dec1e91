//! What matches look up in the tables.
ghost use Rattle.std.specs.Prelude.{◌≡◌, ◌==◌, ◌&&◌, ℕ, List, Some, find, refl};
ghost use Rattle.std.specs.List.{list_any};
ghost use Rattle.std.specs.Option.{option_copied};
ghost use Rattle.nb_model.specs.Addresses.{size_of};
ghost use Rattle.nb_model.specs.Network.{port_id, router_port_id};
ghost use Rattle.nb_model.specs.Names.{names, is_member, group_has, group_has_address};
ghost use Rattle.nb_records.specs.Tags.{ips_of, port_tags};
ghost use Rattle.nb_store.specs.inner.Listed.{before, is_it, lists, has_ip};
ghost use Rattle.nv_table.specs.Table.{has_tag, is_after, NumbersRise};

use crate::records::Records;
use expr_core::Env;
use expr_ports::PortNames;
use nb_records::{Addr, Group, HasValue, Member, Port, Tag};
use nv_base::{Name, ObjId, Prefix};
use nv_map::Probe;

impl Env for Records {
    ghost lookup = { names };

    fn port(&self, name: &Name) -> Option<ObjId> {
        if name.as_slice().starts_with(b"_MC_") {
            return None;
        }
        self.port_of(name)
    }

    fn in_set(&self, name: &[u8], width: u8, value: u128) -> bool {
        match self.set_of(name) {
            Some(set) => has_member(set.members.as_slice(), width, value),
            None => {
                width == 32
                    && name.ends_with(b"_ip4")
                    && self.group_has_address(&name[..name.len() - 4], value)
            }
        }
    }

    fn in_group(&self, name: &[u8], port: ObjId) -> bool {
        self.group_has(name, port)
    }

    fn is_switch(&self, dp: ObjId) -> bool {
        self.switches.get(dp).is_some()
    }

    ghost multicast_is_no_port = { λ _. (refl, refl) };
}

// A number is that of a port of a switch or of a router, whose names are found by it.
impl PortNames for Records {
    fn port_names(&self, port: ObjId) -> (Option<&Name>, Option<&Name>) {
        (self.port_name(port), self.router_port_name(port))
    }
}

impl Records {
    // The name of the port of a switch that has the number.
    fn port_name(&self, port: ObjId) -> Option<&Name>
        ensures { (name : List ℕ) → port_id self.now name ≡ Some port → option_copied result ≡ Some name }
    {
        match self.ports.get(port) {
            Some(port) => Some(&port.name),
            None => None,
        }
    }

    // The name of the port of a router that has the number.
    fn router_port_name(&self, port: ObjId) -> Option<&Name>
        ensures { (name : List ℕ) → router_port_id self.now name ≡ Some port → option_copied result ≡ Some name }
    {
        match self.router_ports.get(port) {
            Some(port) => Some(&port.name),
            None => None,
        }
    }

    // Whether the port is in the group of this name.
    fn group_has(&self, name: &[u8], port: ObjId) -> bool
        ensures { result ≡ group_has self.now name.now port }
    {
        match self.group_of(name) {
            Some(group) => self.lists(group.id, port),
            None => false,
        }
    }

    // Whether the group of a number lists the port: whether, of the groups that do, it is the first from its number on. However many
    // ports it has, this is a look-up.
    fn lists(&self, group: ObjId, port: ObjId) -> bool
        ensures { result ≡ lists self.now.groups group port }
    {
        is_it(group, self.group_with(port, before(group)))
    }

    // Whether the address is that of a port of the group of this name. However many ports it has, only those are looked at that have
    // the address, or more addresses than are told one by one.
    fn group_has_address(&self, name: &[u8], value: u128) -> bool
        ensures { result ≡ group_has_address self.now name.now value }
    {
        match self.group_of(name) {
            Some(group) => self.lists_address(group.id, value),
            None => false,
        }
    }

    // Whether the group of a number lists a port that has the address.
    fn lists_address(&self, group: ObjId, value: u128) -> bool
        ensures listed { result ≡ list_any (λ port. lists self.now.groups group port.id && has_ip value port) self.now.ports }
        ensures rise { NumbersRise (λ port. port.id) self.now.ports }
    {
        self.lists_tagged(group, &HasValue(value), value)
            || self.lists_tagged(group, &Tag::HasMany, value)
    }

    // Whether it lists a port that has the tag and the address.
    fn lists_tagged<P: Probe<Tag>>(&self, group: ObjId, tag: &P, value: u128) -> bool
        ensures listed { result ≡ list_any (λ port. has_tag port_tags (P.order tag.now) port && (lists self.now.groups group port.id && has_ip value port)) self.now.ports }
        ensures rise { NumbersRise (λ port. port.id) self.now.ports }
    {
        let mut after = None;
        while let Some(port) = self.port_tagged(tag, after) {
            if self.lists_one(group, port, value) {
                return true;
            }
            after = Some(port.id);
        }
        false
    }

    // Whether it lists this port, and the port has the address.
    fn lists_one(&self, group: ObjId, port: &Port, value: u128) -> bool
        ensures { result ≡ (lists self.now.groups group port.now.id && has_ip value port.now) }
    {
        self.lists(group, port.id) && has_ip(port, value)
    }

    // The first port that has the tag, above a number where one is given.
    fn port_tagged<P: Probe<Tag>>(&self, tag: &P, after: Option<ObjId>) -> Option<&Port>
        ensures port { option_copied result ≡ find (λ port. is_after after port.id && has_tag port_tags (P.order tag.now) port) self.now.ports }
        ensures rise { NumbersRise (λ port. port.id) self.now.ports }
    {
        self.ports.tagged(tag, after)
    }
}

// The number before this one, if there is one.
fn before(number: ObjId) -> Option<ObjId>
    ensures { result ≡ before number }
{
    match number.0.checked_sub(1) {
        Some(low) => Some(ObjId(low)),
        None => None,
    }
}

// Whether a group was found, and has this number.
fn is_it(number: ObjId, found: Option<&Group>) -> bool
    ensures { result ≡ is_it number (option_copied found.entry) }
{
    match found {
        Some(group) => group.id == number,
        None => false,
    }
}

// Whether the port has the address.
#[tactic(auto, using(crate::proofs::Pieces::any_of_pieces))]
fn has_ip(port: &Port, value: u128) -> bool
    ensures { result ≡ has_ip value port.now }
{
    are_addresses(port.addresses.as_slice(), value)
}

// Whether one of the addresses of a port is this one.
fn are_addresses(addresses: &[Addr], value: u128) -> bool
    ensures { result ≡ list_any (λ addr. list_any (λ ip. ip.0 == value) (ips_of addr)) addresses.now }
{
    addresses.iter().any(|addr| is_address(addr, value))
}

// Whether an address of a port is this one.
fn is_address(addr: &Addr, value: u128) -> bool
    ensures { result ≡ list_any (λ ip. ip.0 == value) (ips_of addr.now) }
{
    match addr {
        Addr::Unknown | Addr::Router => false,
        Addr::Host { ips, .. } => ips.as_slice().iter().any(|ip| u128::from(ip.0) == value),
    }
}

// Whether a number of so many bits is one of the members of a set.
fn has_member(members: &[Member], width: u8, value: u128) -> bool
    ensures { result ≡ list_any (is_member width value) members.now }
{
    members
        .iter()
        .any(|member| is_member(*member, width, value))
}

// Whether a number of so many bits is a member of a set.
fn is_member(member: Member, width: u8, value: u128) -> bool
    ensures { result ≡ is_member width value member }
{
    match member {
        Member::Mac(mac) => width == 48 && u128::from(mac.0) == value,
        Member::Net(net) => width == 32
            && value / size_of(net) == u128::from(net.base.0) / size_of(net),
    }
}

// How many addresses a network has.
fn size_of(net: Prefix) -> u128
    ensures { result ≡ size_of net }
{
    1 << 32_u8.saturating_sub(net.len)
}
