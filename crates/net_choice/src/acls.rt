//! The ACL that decides on a packet.
ghost use Rattle.std.specs.Prelude.{◌≡◌, option_map};
ghost use Rattle.std.specs.Option.{option_copied};
ghost use Rattle.nb_model.specs.Sound.{IsSound};
ghost use Rattle.net_meaning.specs.AclVerdict.{deciding};
ghost use Rattle.net_choice.specs.inner.Acls.{first, first_of, first_on, first_with, is_before, takes};

use expr_eval::holds;
use nb_records::{Acl, Way};
use nb_store::{Records, is_same_way};
use nv_base::ObjId;
use pkt_core::Packet;

/// The number of the ACL that decides on a packet that is not tracked, at a switch, in a direction (ovn-nb(5), 'ACL TABLE'): of those
/// that apply to the switch and whose matches hold, the one of the highest priority, and of several of that priority the one of the
/// lowest number, which is not from OVN. `None` where no ACL decides. It takes no memory, and looks at the ACLs of the switch and of
/// the groups of its ports alone, at those of a group once for each of its ports there; where there is no group, at no port.
pub fn acl_first(records: &Records, switch: ObjId, way: Way, packet: &Packet) -> Option<ObjId>
    requires { IsSound records.now }
    ensures { result ≡ option_map (λ acl. acl.id) (deciding records.now switch way packet.now) }
{
    let own = first_of(None, records, switch, way, packet);
    first_on(own, records, switch, way, packet).map(|acl| acl.id)
}

// The first of an ACL and those of the groups of the ports of a switch, among those for the packet. Where there is no group, no port
// is asked.
fn first_on<'a>(
    best: Option<&'a Acl>,
    records: &'a Records,
    switch: ObjId,
    way: Way,
    packet: &Packet,
) -> Option<&'a Acl>
    requires { IsSound records.now }
    ensures { option_copied result ≡ first_on records.now way packet.now (option_copied best.entry) switch }
{
    match records.groups().after(None) {
        None => best,
        Some(_) => first_of_ports(best, records, switch, way, packet),
    }
}

// The first of an ACL and those of the groups of a switch's ports, among those for the packet.
fn first_of_ports<'a>(
    best: Option<&'a Acl>,
    records: &'a Records,
    switch: ObjId,
    way: Way,
    packet: &Packet,
) -> Option<&'a Acl>
    requires { IsSound records.now }
    ensures { option_copied result ≡ first_on records.now way packet.now (option_copied best.entry) switch }
{
    let mut best = best;
    let mut last = None;
    while let Some(port) = records.port_on(switch, last) {
        best = first_with(best, records, port.id, way, packet);
        last = Some(port.id);
    }
    best
}

// The first of an ACL and those of the groups that have a port, among those for the packet.
fn first_with<'a>(
    best: Option<&'a Acl>,
    records: &'a Records,
    port: ObjId,
    way: Way,
    packet: &Packet,
) -> Option<&'a Acl>
    requires { IsSound records.now }
    ensures { option_copied result ≡ first_with records.now way packet.now (option_copied best.entry) port }
{
    let mut best = best;
    let mut last = None;
    while let Some(group) = records.group_with(port, last) {
        best = first_of(best, records, group.id, way, packet);
        last = Some(group.id);
    }
    best
}

// The first of an ACL and those of an owner, among those for the packet.
fn first_of<'a>(
    best: Option<&'a Acl>,
    records: &'a Records,
    owner: ObjId,
    way: Way,
    packet: &Packet,
) -> Option<&'a Acl>
    requires { IsSound records.now }
    ensures { option_copied result ≡ first_of records.now way packet.now (option_copied best.entry) owner }
{
    let mut best = best;
    let mut last = None;
    while let Some(acl) = records.acl_of(owner, last) {
        if takes(records, way, packet, acl) {
            best = first(best, acl);
        }
        last = Some(acl.id);
    }
    best
}

// Whether an ACL is of the direction, and holds of the packet.
fn takes(records: &Records, way: Way, packet: &Packet, acl: &Acl) -> bool
    ensures { result ≡ takes records.now way packet.now acl.now }
{
    is_same_way(acl.way, way) && holds(&acl.matching, packet, records)
}

// The first of two ACLs.
fn first<'a>(best: Option<&'a Acl>, acl: &'a Acl) -> Option<&'a Acl>
    ensures { option_copied result ≡ first (option_copied best.entry) acl.now }
{
    match best {
        Some(best) if !is_before(acl, best) => Some(best),
        _ => Some(acl),
    }
}

// Whether an ACL decides before another one: by its priority, and of equals by its number.
fn is_before(acl: &Acl, other: &Acl) -> bool
    ensures { result ≡ is_before acl.now other.now }
{
    acl.priority > other.priority || acl.priority == other.priority && acl.id.0 < other.id.0
}
