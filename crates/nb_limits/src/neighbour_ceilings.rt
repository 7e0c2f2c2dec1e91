//! What is known of how many neighbours router ports know, after edits of ports (not from OVN). A port that becomes a peer raises it by
//! what is on its switch. Only where two ports name one router port, as by a slip, may the second take the place of the first, and
//! nothing is known once the first is gone: then neighbours are counted once, by a walk over the ports of all switches.
ghost use Rattle.std.specs.Prelude.{◌≡◌, Some, length, is_some};
ghost use Rattle.std.specs.Option.{option_copied};
ghost use Rattle.nb_limits.specs.inner.NeighboursAfter.{neighbours_after, peer_named, with_peer, with_router_port, with_own, with_name, named_after, is_followed, has_follower, without, without_port, has_followers, without_switch, with_addresses, with_enabled, same_kind, other_kind, with_kind, same_option, with_option};
ghost use Rattle.nb_limits.specs.inner.Within.{raised, raised_by};
ghost use Rattle.nb_limits.specs.Limitless.{IsSoundButLimits};
ghost use Rattle.nb_model.specs.Amounts.{bound};
ghost use Rattle.nb_model.specs.Belongs.{is_to_router};
ghost use Rattle.nb_model.specs.Network.{port_named, router_port_named, switch_id};
ghost use Rattle.nb_records.specs.declared.refusal.Kind.TheVariants as kind;
ghost use Rattle.nv_table.specs.Table.{NumbersRise, record_of};

use crate::bounds::bound;
use crate::neighbour_limits::{ip_counts, neighbours_beside, pair_count};
use crate::within::{raised, raised_by};
use nb_records::{Addr, Edit, Kind, Names, Port, PortKind, RouterPort};
use nb_store::Records;
use nv_base::{Name, ObjId};

/// After an edit. Only edits of ports, and of switches with their ports, may change what is known.
pub(crate) fn neighbours_after(records: &Records, edit: &Edit, known: Option<u64>) -> Option<u64>
    requires limitless { IsSoundButLimits records.now }
    ensures { result ≡ neighbours_after records.now edit.now known }
{
    match edit {
        Edit::LrpAdd { port, nets, .. } => {
            with_router_port(records, port, nets.as_slice().len() as u64, known)
        }
        Edit::LsDel { name, .. } => without_switch(records, name, known),
        Edit::LspDel { port, .. } => without_port(records, port, known),
        Edit::LspSetAddresses { addresses, .. } => {
            with_addresses(records, addresses.as_slice(), known)
        }
        Edit::LspSetType { port, kind } => with_kind(records, port, *kind, known),
        Edit::LspSetOptions { port, router_port } => {
            with_option(records, port, router_port.as_ref(), known)
        }
        Edit::LspSetEnabled {
            port,
            enabled: true,
        } => with_enabled(records, port, known),
        _ => known,
    }
}

// After a router port more of this name and so many networks, which brings none where no port names it.
fn with_router_port(records: &Records, name: &Name, nets: u64, known: Option<u64>) -> Option<u64>
    requires limitless { IsSoundButLimits records.now }
    ensures { result ≡ with_router_port records.now (peer_named records.now name.now) nets known }
{
    match records.peer_named(name) {
        Some(peer) => with_new_peer(records, peer, nets, known),
        None => known,
    }
}

// Where a port names it: it may know its own networks too.
fn with_new_peer(records: &Records, peer: &Port, nets: u64, known: Option<u64>) -> Option<u64>
    requires limitless { IsSoundButLimits records.now }
    ensures { result ≡ raised (bound kind.Neighbour) (with_peer records.now peer.now nets known) nets 1 }
{
    raised(
        with_peer(records, peer, nets, known),
        nets,
        1,
        Kind::Neighbour,
    )
}

// Once a port is the peer of a router port of so many networks: that one knows what is across it, and each no more than these networks
// besides.
fn with_peer(records: &Records, peer: &Port, nets: u64, known: Option<u64>) -> Option<u64>
    requires limitless { IsSoundButLimits records.now }
    ensures { result ≡ with_peer records.now peer.now nets known }
{
    let across = neighbours_beside(records, peer, u64::from(bound(Kind::Neighbour)));
    let own = raised_by(known, across, 1, Kind::Neighbour);
    raised(own, nets, records.router_ports().count(), Kind::Neighbour)
}

// Once a port of kind Router has this option.
fn with_name(records: &Records, port: &Port, name: Option<&Name>, known: Option<u64>) -> Option<u64>
    requires limitless { IsSoundButLimits records.now }
    ensures { result ≡ with_name records.now port.now (option_copied name.entry) known }
{
    match name {
        Some(name) => with_own(records, port, records.router_port_named(name), known),
        None => known,
    }
}

// Once it names this router port, if it is there.
fn with_own(
    records: &Records,
    port: &Port,
    own: Option<&RouterPort>,
    known: Option<u64>,
) -> Option<u64>
    requires limitless { IsSoundButLimits records.now }
    ensures { result ≡ with_own records.now port.now (option_copied own.entry) known }
{
    match own {
        Some(own) => with_peer(records, port, own.nets.as_slice().len() as u64, known),
        None => known,
    }
}

// Without the port of this name, if it is there.
fn without_port(records: &Records, name: &Name, known: Option<u64>) -> Option<u64>
    ensures { result ≡ without_port records.now (port_named records.now name.now) known }
{
    match records.port_named(name) {
        Some(port) => without(records, port, known),
        None => known,
    }
}

// Once a port is no peer: there are no more, but where another one may be a peer in its place.
fn without(records: &Records, port: &Port, known: Option<u64>) -> Option<u64>
    ensures { result ≡ without records.now port.now known }
{
    if has_follower(records, port) {
        None
    } else {
        known
    }
}

// Whether another port may be a peer in the place of this one.
fn has_follower(records: &Records, port: &Port) -> bool
    ensures { result ≡ has_follower records.now port.now }
{
    is_to_router(port) && is_followed(records, port.id, port.router_port.as_ref())
}

// Whether a port above a number names what the option names.
fn is_followed(records: &Records, number: ObjId, name: Option<&Name>) -> bool
    ensures { result ≡ is_followed records.now number (option_copied name.entry) }
{
    match name {
        Some(name) => is_there(named_after(records, number, name)),
        None => false,
    }
}

fn is_there(port: Option<&Port>) -> bool
    ensures { result ≡ is_some (option_copied port.entry) }
{
    port.is_some()
}

// The first port above a number that is of kind Router and names this router port.
fn named_after<'a>(records: &'a Records, number: ObjId, name: &Name) -> Option<&'a Port>
    ensures { option_copied result ≡ named_after records.now number name.now }
{
    records.ports().tagged(&Names(name), Some(number))
}

// Without the switch of this name, if it is there, and its ports.
fn without_switch(records: &Records, name: &Name, known: Option<u64>) -> Option<u64>
    requires limitless { IsSoundButLimits records.now }
    ensures { result ≡ without_switch records.now (switch_id records.now name.now) known }
{
    match records.switch_id(name) {
        Some(switch) => without_ports(records, switch, known),
        None => known,
    }
}

fn without_ports(records: &Records, switch: ObjId, known: Option<u64>) -> Option<u64>
    requires limitless { IsSoundButLimits records.now }
    ensures { result ≡ without_switch records.now (Some switch) known }
{
    if has_followers(records, switch) {
        None
    } else {
        known
    }
}

// Whether another port may be a peer in the place of one of the switch.
fn has_followers(records: &Records, switch: ObjId) -> bool
    requires limitless { IsSoundButLimits records.now }
    ensures { result ≡ has_followers records.now switch }
{
    let mut after = None;
    while let Some(port) = records.port_on(switch, after) {
        if has_follower(records, port) {
            return true;
        }
        after = Some(port.id);
    }
    false
}

fn is_to_router(port: &Port) -> bool
    ensures { result ≡ is_to_router port.now }
{
    match port.kind {
        PortKind::Router => true,
        PortKind::Host => false,
    }
}

// Once a port has these addresses: each router port knows no more than all of them besides.
fn with_addresses(records: &Records, addresses: &[Addr], known: Option<u64>) -> Option<u64>
    ensures { result ≡ with_addresses records.now addresses.now known }
{
    let more = ip_counts(addresses, u64::from(bound(Kind::Neighbour)));
    each_knows(records, more, known)
}

// Where each router port knows no more than so many besides.
fn each_knows(records: &Records, more: Option<u64>, known: Option<u64>) -> Option<u64>
    ensures { result ≡ raised_by (bound kind.Neighbour) known more (length records.now.router_ports) }
{
    raised_by(known, more, records.router_ports().count(), Kind::Neighbour)
}

// Once the port of this name, if it is there, is enabled: where it was disabled, each router port knows no more than its pairs besides.
fn with_enabled(records: &Records, name: &Name, known: Option<u64>) -> Option<u64>
    requires limitless { IsSoundButLimits records.now }
    ensures { result ≡ with_enabled records.now (port_named records.now name.now) known }
{
    match records.port_named(name) {
        Some(port) => with_port_enabled(records, port, known),
        None => known,
    }
}

fn with_port_enabled(records: &Records, port: &Port, known: Option<u64>) -> Option<u64>
    requires there { record_of (λ x. x.id) port.now.id records.now.ports ≡ Some port.now }
    requires rise { NumbersRise (λ x. x.id) records.now.ports }
    ensures { result ≡ with_enabled records.now (Some port.now) known }
{
    if port.enabled {
        return known;
    }
    let more = pair_count(records, port, u64::from(bound(Kind::Neighbour)));
    each_knows(records, more, known)
}

// Once the port of this name, if it is there, has this kind.
fn with_kind(records: &Records, name: &Name, kind: PortKind, known: Option<u64>) -> Option<u64>
    requires limitless { IsSoundButLimits records.now }
    ensures { result ≡ with_kind records.now (port_named records.now name.now) kind known }
{
    match records.port_named(name) {
        Some(port) => with_port_kind(records, port, kind, known),
        None => known,
    }
}

fn with_port_kind(records: &Records, port: &Port, kind: PortKind, known: Option<u64>) -> Option<u64>
    requires limitless { IsSoundButLimits records.now }
    ensures { result ≡ with_kind records.now (Some port.now) kind known }
{
    if same_kind(port.kind, kind) {
        known
    } else {
        other_kind(records, port, kind, known)
    }
}

// Where it had the other kind: it names what its option says, or is no peer and its addresses come.
fn other_kind(records: &Records, port: &Port, kind: PortKind, known: Option<u64>) -> Option<u64>
    requires limitless { IsSoundButLimits records.now }
    ensures { result ≡ other_kind records.now port.now kind known }
{
    match kind {
        PortKind::Router => with_name(records, port, port.router_port.as_ref(), known),
        PortKind::Host => with_addresses(
            records,
            port.addresses.as_slice(),
            without(records, port, known),
        ),
    }
}

fn same_kind(a: PortKind, b: PortKind) -> bool
    ensures { result ≡ same_kind a b }
{
    match (a, b) {
        (PortKind::Host, PortKind::Host) | (PortKind::Router, PortKind::Router) => true,
        _ => false,
    }
}

// Once the port of this name, if it is there, has this option. Where it is of kind Router and had another one, it may be another
// router port's peer.
fn with_option(
    records: &Records,
    name: &Name,
    router_port: Option<&Name>,
    known: Option<u64>,
) -> Option<u64>
    requires limitless { IsSoundButLimits records.now }
    ensures { result ≡ with_option records.now (port_named records.now name.now) (option_copied router_port.entry) known }
{
    match records.port_named(name) {
        Some(port) => with_port_option(records, port, router_port, known),
        None => known,
    }
}

fn with_port_option(
    records: &Records,
    port: &Port,
    router_port: Option<&Name>,
    known: Option<u64>,
) -> Option<u64>
    requires limitless { IsSoundButLimits records.now }
    ensures { result ≡ with_option records.now (Some port.now) (option_copied router_port.entry) known }
{
    if !is_to_router(port) || same_option(port.router_port.as_ref(), router_port) {
        known
    } else {
        with_name(records, port, router_port, without(records, port, known))
    }
}

fn same_option(a: Option<&Name>, b: Option<&Name>) -> bool
    ensures { result ≡ same_option (option_copied a.entry) (option_copied b.entry) }
{
    match (a, b) {
        (Some(a), Some(b)) => a.as_slice() == b.as_slice(),
        (None, None) => true,
        _ => false,
    }
}
