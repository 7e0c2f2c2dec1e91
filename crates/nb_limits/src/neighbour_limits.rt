//! How many neighbours router ports know (not from OVN).
ghost use Rattle.std.specs.Prelude.{◌≡◌, ◌*◌, Some, if◌then◌else◌};
ghost use Rattle.std.specs.Option.{option_copied};
ghost use Rattle.nb_limits.specs.Limitless.{IsSoundButLimits};
ghost use Rattle.nb_limits.specs.inner.Within.{up_to};
ghost use Rattle.nb_limits.specs.inner.Across.{is_across, peered, peers_on, known_at, neighbours_on};
ghost use Rattle.nb_limits.specs.inner.Weights.{found_count};
ghost use Rattle.nb_records.specs.declared.refusal.Kind.TheVariants as kind;
ghost use Rattle.nb_model.specs.Amounts.{amount, total, ip_count, net_count, pair_count, neighbours_across};
ghost use Rattle.nv_table.specs.Table.{NumbersRise, record_of};

use crate::within::{add, add_times};
use nb_records::{Addr, Port, PortKind, RouterPort};
use nb_store::Records;
use nv_base::ObjId;

/// How many neighbours router ports know across their peers, where they are within the bound. The ports of each switch are looked at
/// at most twice, and no router port by itself.
pub(crate) fn neighbours(records: &Records, bound: u64) -> Option<u64>
    requires limitless { IsSoundButLimits records.now }
    ensures { result ≡ up_to bound (amount records.now kind.Neighbour) }
{
    let mut sum = 0;
    let mut after = None;
    while let Some(switch) = records.switches().after(after) {
        let more = neighbours_on(records, switch.id, bound)?;
        sum = add(sum, more, bound)?;
        after = Some(switch.id);
    }
    Some(sum)
}

// How many there are at the ports of a switch. Where no router port has its peer there, there are none.
fn neighbours_on(records: &Records, switch: ObjId, bound: u64) -> Option<u64>
    requires limitless { IsSoundButLimits records.now }
    ensures { result ≡ up_to bound (neighbours_on records.now switch) }
{
    let peers = peers_on(records, switch);
    if peers == 0 {
        return Some(0);
    }
    let mut sum = 0;
    let mut after = None;
    while let Some(port) = records.port_on(switch, after) {
        let more = known_at(records, port, peers, bound)?;
        sum = add(sum, more, bound)?;
        after = Some(port.id);
    }
    Some(sum)
}

// How many ports of a switch are peers of router ports. Where there are no router ports, none is looked at.
fn peers_on(records: &Records, switch: ObjId) -> u64
    requires limitless { IsSoundButLimits records.now }
    ensures { result ≡ peers_on records.now switch }
{
    let most = records.router_ports().count();
    if most == 0 {
        return 0;
    }
    let mut count = 0;
    let mut after = None;
    while let Some(port) = records.port_on(switch, after) {
        count += peered(records, port);
        after = Some(port.id);
    }
    count
}

// 1 where the port is the peer of a router port, else 0.
fn peered(records: &Records, port: &Port) -> u64
    requires there { record_of (λ x. x.id) port.now.id records.now.ports ≡ Some port.now }
    requires rise { NumbersRise (λ x. x.id) records.now.ports }
    ensures { result ≡ peered records.now port.now }
{
    found_count(records.peer_router_port(port))
}

fn found_count(port: Option<&RouterPort>) -> u64
    ensures { result ≡ found_count (option_copied port.entry) }
{
    match port {
        Some(_) => 1,
        None => 0,
    }
}

// By how many pairs the router ports with so many peers on the port's switch know it: all but the one whose peer it is.
fn known_at(records: &Records, port: &Port, peers: u64, bound: u64) -> Option<u64>
    requires there { record_of (λ x. x.id) port.now.id records.now.ports ≡ Some port.now }
    requires rise { NumbersRise (λ x. x.id) records.now.ports }
    ensures { result ≡ up_to bound (known_at records.now peers port.now) }
{
    if port.enabled {
        let others = peers.saturating_sub(peered(records, port));
        known_to(records, port, others, bound)
    } else {
        Some(0)
    }
}

// By how many pairs so many router ports know it. Where there are none, its pairs are not counted.
fn known_to(records: &Records, port: &Port, others: u64, bound: u64) -> Option<u64>
    requires there { record_of (λ x. x.id) port.now.id records.now.ports ≡ Some port.now }
    requires rise { NumbersRise (λ x. x.id) records.now.ports }
    ensures { result ≡ up_to bound (pair_count records.now port.now * others) }
{
    if others == 0 {
        return Some(0);
    }
    let pairs = pair_count(records, port, bound)?;
    add_times(0, pairs, others, bound)
}

/// How many a router port with this peer knows: those at the other ports of its switch, where they are within the bound.
pub(crate) fn neighbours_beside(records: &Records, peer: &Port, bound: u64) -> Option<u64>
    requires limitless { IsSoundButLimits records.now }
    ensures { result ≡ up_to bound (neighbours_across records.now (Some peer.now)) }
{
    let mut sum = 0;
    let mut after = None;
    while let Some(port) = records.port_on(peer.switch, after) {
        let more = neighbours_at(records, port, peer, bound)?;
        sum = add(sum, more, bound)?;
        after = Some(port.id);
    }
    Some(sum)
}

// How many there are at a port of that switch.
fn neighbours_at(records: &Records, port: &Port, peer: &Port, bound: u64) -> Option<u64>
    requires there { record_of (λ x. x.id) port.now.id records.now.ports ≡ Some port.now }
    requires rise { NumbersRise (λ x. x.id) records.now.ports }
    ensures { result ≡ up_to bound (if is_across peer.now port.now then pair_count records.now port.now else 0) }
{
    if port.enabled && port.id != peer.id {
        pair_count(records, port, bound)
    } else {
        Some(0)
    }
}

/// By how many pairs a router knows the port, where they are within the bound.
pub(crate) fn pair_count(records: &Records, port: &Port, bound: u64) -> Option<u64>
    requires there { record_of (λ x. x.id) port.now.id records.now.ports ≡ Some port.now }
    requires rise { NumbersRise (λ x. x.id) records.now.ports }
    ensures { result ≡ up_to bound (pair_count records.now port.now) }
{
    match port.kind {
        PortKind::Router => add(0, net_count(records.peer_router_port(port)), bound),
        PortKind::Host => ip_counts(port.addresses.as_slice(), bound),
    }
}

// How many networks a router port has.
fn net_count(port: Option<&RouterPort>) -> u64
    ensures { result ≡ net_count (option_copied port.entry) }
{
    match port {
        Some(port) => port.nets.as_slice().len() as u64,
        None => 0,
    }
}

/// How many IPv4 addresses there are in addresses, where they are within the bound.
pub(crate) fn ip_counts(addresses: &[Addr], bound: u64) -> Option<u64>
    ensures { result ≡ up_to bound (total ip_count addresses.now) }
{
    let mut sum = 0;
    for addr in addresses {
        sum = add(sum, ip_count(addr), bound)?;
    }
    Some(sum)
}

// How many there are in one address.
fn ip_count(addr: &Addr) -> u64
    ensures { result ≡ ip_count addr.now }
{
    match addr {
        Addr::Unknown | Addr::Router => 0,
        Addr::Host { ips, .. } => ips.as_slice().len() as u64,
    }
}
