//! The input of a neighbour: the hosts at a port of a switch.
ghost use Rattle.std.specs.Prelude.{◌≡◌, ◌++◌, Some, map, IfOk, OnOk};
ghost use Rattle.std.specs.List.{flat_map};
ghost use Rattle.lr_units.specs.Units.{neighbour_input};
ghost use Rattle.lr_units.specs.Words.{hosts_at, hosts_of, hosts_of_peer};
ghost use Rattle.nb_model.specs.Sound.{IsSound};
ghost use Rattle.nv_table.specs.Table.{record_of};

use lr_rows::{Host, NeighbourInput};
use nb_records::{Addr, Port, PortKind, RouterPort};
use nb_store::Records;
use nv_base::{Ip4, Items, Kept, Mac, OutOfMemory};
use std::alloc::Global;

/// The input of a port across a port of a router. Where memory runs out the answer is `OutOfMemory`.
pub fn neighbour_input(
    alloc: Global,
    records: &Records,
    port: &RouterPort,
    other: &Port,
) -> Result<NeighbourInput, OutOfMemory>
    requires sound { IsSound records.now }
    requires there { record_of (λ x. x.id) other.now.id records.now.ports ≡ Some other.now }
    ensures { IfOk result (λ input. input ≡ neighbour_input records.now port.now other.now) }
{
    Ok(NeighbourInput {
        dp: port.router,
        name: port.name.copy(alloc)?,
        hosts: hosts_at(alloc, records, other)?,
    })
}

// The hosts at a port of a switch: those of its addresses, or, where it leads to a router, those of its peer.
fn hosts_at(alloc: Global, records: &Records, port: &Port) -> Result<Items<Host>, OutOfMemory>
    requires sound { IsSound records.now }
    requires there { record_of (λ x. x.id) port.now.id records.now.ports ≡ Some port.now }
    ensures { IfOk result (λ hosts. hosts ≡ hosts_at records.now port.now) }
{
    match port.kind {
        PortKind::Host => hosts_of_all(alloc, port.addresses.as_slice()),
        PortKind::Router => match records.peer_router_port(port) {
            Some(peer) => hosts_of_peer(alloc, peer),
            None => Ok(Items::new(alloc)),
        },
    }
}

// The addresses of a router port, each with its MAC.
fn hosts_of_peer(alloc: Global, peer: &RouterPort) -> Result<Items<Host>, OutOfMemory>
    ensures { IfOk result (λ hosts. hosts ≡ hosts_of_peer (Some peer.now)) }
{
    let nets = peer.nets.as_slice();
    let mut hosts = Items::with_capacity(alloc, nets.len())?;
    for net in nets {
        hosts.push(Host {
            mac: peer.mac,
            addr: net.base,
        })?;
    }
    Ok(hosts)
}

// The hosts that the addresses of a port tell.
fn hosts_of_all(alloc: Global, addresses: &[Addr]) -> Result<Items<Host>, OutOfMemory>
    ensures { IfOk result (λ hosts. hosts ≡ flat_map hosts_of addresses.now) }
{
    let mut hosts = Items::new(alloc);
    for address in addresses {
        put_hosts_of(&mut hosts, address)?;
    }
    Ok(hosts)
}

fn put_hosts_of(hosts: &mut Items<Host>, address: &Addr) -> Result<(), OutOfMemory>
    ensures { OnOk result (hosts.new ≡ hosts.old ++ hosts_of address.now) }
{
    match address {
        Addr::Host { mac, ips } => put_hosts_with(hosts, *mac, ips.as_slice()),
        Addr::Unknown | Addr::Router => Ok(()),
    }
}

fn put_hosts_with(hosts: &mut Items<Host>, mac: Mac, ips: &[Ip4]) -> Result<(), OutOfMemory>
    ensures { OnOk result (hosts.new ≡ hosts.old ++ map (λ ip. record { mac = mac; addr = ip }) ips.now) }
{
    for ip in ips {
        hosts.push(Host { mac, addr: *ip })?;
    }
    Ok(())
}
