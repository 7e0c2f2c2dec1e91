//! The hop by which a router passes a packet on.
ghost use Rattle.std.specs.Prelude.{◌≡◌, ◌≤◌, option_map};
ghost use Rattle.nb_model.specs.Sound.{IsSound};
ghost use Rattle.net_router.specs.Routing.{route};
ghost use Rattle.net_choice.specs.Hops.{numbered};
ghost use Rattle.net_choice.specs.inner.Routes.{is_shorter, longer, longest_by, longest_direct, longest_static, longest_to, network_of, numbered_way, way_for};

use crate::exits::{asking, exit_of, is_in_network};
use nb_records::{RouteBy, RouterPort};
use nb_store::Records;
use nv_base::{Ip4, ObjId, Prefix};

/// How a packet leaves a router.
#[derive(Clone, Copy)]
pub struct Hop {
    /// The port of the router by which it leaves.
    pub port: ObjId,
    /// The address of the next host: of the next router, or the packet's destination.
    pub via: Ip4,
    /// The address of the port from which the MAC of the next host is asked for.
    pub from: Ip4,
}

// A way from a router: how many bits its prefix has, and where it leads.
#[derive(Clone, Copy)]
struct Way {
    len: u8,
    hop: Hop,
}

/// The hop by which a router passes a packet from a source to a destination on (ovn-northd(8), 'IP Routing'): the one of the longest
/// prefix; of equals that to a network of its ports comes before that of a route by destination, and this before that of a route by
/// source. `None` where no way leads on. It takes no memory. It looks at the router's own ports, and looks up at most one route of each
/// policy and length: none that would not be longer than what it has found.
pub fn route_of(records: &Records, router: ObjId, src: Ip4, dst: Ip4) -> Option<Hop>
    requires { IsSound records.now }
    ensures { result ≡ option_map numbered (route records.now router src dst) }
{
    let direct = longest_direct(records, router, dst);
    let by_destination = longest_static(direct, records, router, RouteBy::Dst, dst);
    let longest = longest_static(by_destination, records, router, RouteBy::Src, src);
    Some(longest?.hop)
}

// ---- networks of ports

// The longest way to the networks of the ports of a router.
fn longest_direct(records: &Records, router: ObjId, dst: Ip4) -> Option<Way>
    requires { IsSound records.now }
    ensures { result ≡ longest_direct records.now router dst }
{
    let mut best = None;
    let mut last = None;
    while let Some(port) = records.router_port_on(router, last) {
        best = longest_by(best, port, dst);
        last = Some(port.id);
    }
    best
}

// The longest of a way and those to the networks of a port.
fn longest_by(best: Option<Way>, port: &RouterPort, dst: Ip4) -> Option<Way>
    ensures { result ≡ longest_by dst best port.now }
{
    let mut best = best;
    for own in port.nets.as_slice() {
        best = longest_to(best, port.id, *own, dst);
    }
    best
}

// The longer of a way and the one to a network, where this has the destination.
fn longest_to(best: Option<Way>, port: ObjId, own: Prefix, dst: Ip4) -> Option<Way>
    ensures { result ≡ longest_to port dst best own }
{
    if !is_in_network(dst, own) {
        return best;
    }
    let way = Way {
        len: own.len,
        hop: Hop {
            port,
            via: dst,
            from: own.base,
        },
    };
    longer(best, way)
}

// The longer of two ways, of equals the first.
fn longer(best: Option<Way>, way: Way) -> Option<Way>
    ensures { result ≡ longer best way }
{
    match best {
        Some(best) if best.len >= way.len => Some(best),
        _ => Some(way),
    }
}

// ---- static routes

// The longest of a way and those by the routes of a router that look at an address and take it. They are looked up by rising size of
// their networks, as long as one could be longer than the way.
fn longest_static(
    best: Option<Way>,
    records: &Records,
    router: ObjId,
    by: RouteBy,
    ip: Ip4,
) -> Option<Way>
    requires { IsSound records.now }
    ensures { result ≡ longest_static records.now router by ip best }
{
    // No route that takes the address leads to a way of so many bits, or more.
    let mut above = 33;
    while above > 0 {
        above -= 1;
        if !is_shorter(best, above) {
            return best;
        }
        if let Some(way) = way_for(records, router, by, network_of(ip, above)) {
            return Some(way);
        }
    }
    best
}

// Whether a way is shorter than so many bits, or there is none.
fn is_shorter(best: Option<Way>, len: u8) -> bool
    ensures { result ≡ is_shorter best len }
{
    match best {
        None => true,
        Some(way) => way.len < len,
    }
}

// The network of this length that has the address.
fn network_of(ip: Ip4, len: u8) -> Prefix
    requires { len ≤ 32 }
    ensures { result ≡ network_of ip len }
{
    let size = 1u64 << (32 - len);
    Prefix {
        base: Ip4((u64::from(ip.0) / size * size) as u32),
        len,
    }
}

// The way by the route of a router that is of a policy and for a prefix, if there is one and it leaves by a port.
fn way_for(records: &Records, router: ObjId, by: RouteBy, prefix: Prefix) -> Option<Way>
    requires { IsSound records.now }
    ensures { result ≡ option_map numbered_way (way_for records.now router by prefix) }
{
    let route = records.route_saying(router, by, prefix)?;
    let port = exit_of(records, route)?;
    Some(Way {
        len: route.prefix.len,
        hop: Hop {
            port: port.id,
            via: route.nexthop,
            from: asking(port, route.nexthop),
        },
    })
}
