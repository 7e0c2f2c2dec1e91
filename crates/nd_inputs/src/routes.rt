//! The input of a static route: by which port it leaves.
ghost use Rattle.std.specs.Prelude.{◌≡◌, ◌-◌, ◌^◌, ◌≤◌, ◌&&◌, find, IfOk};
ghost use Rattle.std.specs.List.{list_any};
ghost use Rattle.std.specs.Option.{option_copied};
ghost use Rattle.lr_units.specs.Units.{static_route_input};
ghost use Rattle.lr_units.specs.Words.{exit_by, exit_of, holds, if_of, net_towards, port_towards};
ghost use Rattle.nb_model.specs.Network.{router_port_named, same};
ghost use Rattle.nb_model.specs.Sound.{IsSound};

use lr_rows::{Exit, StaticRouteInput};
use nb_records::{Route, RouterPort};
use nb_store::Records;
use nv_base::{Ip4, Kept, Name, ObjId, OutOfMemory, Prefix};
use std::alloc::Global;

/// The input of a static route. Where memory runs out the answer is `OutOfMemory`.
pub fn static_route_input(
    alloc: Global,
    records: &Records,
    route: &Route,
) -> Result<StaticRouteInput, OutOfMemory>
    requires { IsSound records.now }
    ensures { IfOk result (λ input. input ≡ static_route_input records.now route.now) }
{
    Ok(StaticRouteInput {
        dp: route.router,
        by: route.by,
        prefix: route.prefix,
        nexthop: route.nexthop,
        found: exit_of(alloc, records, route)?,
    })
}

// By which port a route leaves, where there is one for it.
fn exit_of(alloc: Global, records: &Records, route: &Route) -> Result<Option<Exit>, OutOfMemory>
    requires { IsSound records.now }
    ensures { IfOk result (λ exit. exit ≡ exit_of records.now route.now) }
{
    match port_towards(records, route) {
        Some(port) => exit_by(alloc, port, route.nexthop),
        None => Ok(None),
    }
}

// The router's port of the name that is given, or the first of its ports that has a network with the next router's address.
fn port_towards<'a>(records: &'a Records, route: &Route) -> Option<&'a RouterPort>
    requires { IsSound records.now }
    ensures { option_copied result ≡ port_towards records.now route.now.router route.now.nexthop route.now.port }
{
    match &route.port {
        Some(name) => port_named(records, route.router, name),
        None => port_near(records, route.router, route.nexthop),
    }
}

fn port_named<'a>(records: &'a Records, router: ObjId, name: &Name) -> Option<&'a RouterPort>
    ensures { option_copied result ≡ if_of router (router_port_named records.now name.now) }
{
    let port = records.router_port_named(name)?;
    if port.router == router {
        Some(port)
    } else {
        None
    }
}

fn port_near(records: &Records, router: ObjId, nexthop: Ip4) -> Option<&RouterPort>
    requires { IsSound records.now }
    ensures { option_copied result ≡ find (λ port. same router port.router && list_any (holds nexthop) port.nets) records.now.router_ports }
{
    let mut last = None;
    while let Some(port) = records.router_port_on(router, last) {
        if is_near(port, nexthop) {
            return Some(port);
        }
        last = Some(port.id);
    }
    None
}

// Whether a network of the port has the address.
fn is_near(port: &RouterPort, nexthop: Ip4) -> bool
    ensures { result ≡ list_any (holds nexthop) port.now.nets }
{
    port.nets.as_slice().iter().any(|net| holds(nexthop, *net))
}

fn exit_by(alloc: Global, port: &RouterPort, nexthop: Ip4) -> Result<Option<Exit>, OutOfMemory>
    ensures { IfOk result (λ exit. exit ≡ exit_by nexthop port.now) }
{
    match net_towards(port, nexthop) {
        Some(net) => Ok(Some(Exit {
            name: port.name.copy(alloc)?,
            mac: port.mac,
            addr: net.base,
        })),
        None => Ok(None),
    }
}

// The first network of the port that has the address, or the first of all.
fn net_towards(port: &RouterPort, nexthop: Ip4) -> Option<Prefix>
    ensures { result ≡ net_towards nexthop port.now }
{
    let nets = port.nets.as_slice();
    net_with(nets, nexthop).or_else(|| nets.first().copied())
}

fn net_with(nets: &[Prefix], nexthop: Ip4) -> Option<Prefix>
    ensures { result ≡ find (holds nexthop) nets.now }
{
    nets.iter().find(|net| holds(nexthop, **net)).copied()
}

// Whether the network has the address.
fn holds(addr: Ip4, net: Prefix) -> bool
    ensures { result ≡ holds addr net }
{
    let size = size_of(net.len);
    u64::from(addr.0) / size == u64::from(net.base.0) / size
}

// How many addresses a network of this length has.
#[tactic(auto, using(std::proofs::lemmas::Nat::one_shl))]
fn size_of(len: u8) -> u64
    requires { len ≤ 32 }
    ensures { result ≡ 2 ^ (32 - len) }
{
    1 << (32 - len)
}
