//! By which port of a router a static route leaves, and from which of its addresses.
ghost use Rattle.std.specs.Prelude.{◌≡◌};
ghost use Rattle.std.specs.List.{find};
ghost use Rattle.std.specs.Option.{option_copied};
ghost use Rattle.nb_model.specs.Sound.{IsSound};
ghost use Rattle.net_router.specs.Input.{first_address, is_in_network};
ghost use Rattle.net_router.specs.Routing.{asking, exit_of, reaches};
ghost use Rattle.net_choice.specs.inner.Routes.{named_exit, reaching_exit};

use nb_records::{Route, RouterPort};
use nb_store::Records;
use nv_base::{Ip4, Name, ObjId, Prefix};

/// The port of a route: the one of its name on its router, and without a name the lowest-numbered one that reaches the next router.
pub(crate) fn exit_of<'a>(records: &'a Records, route: &Route) -> Option<&'a RouterPort>
    requires { IsSound records.now }
    ensures { option_copied result ≡ exit_of records.now route.now }
{
    match &route.port {
        Some(name) => named_exit(records, route.router, name),
        None => reaching_exit(records, route.router, route.nexthop),
    }
}

// The port of a router that has the name.
fn named_exit<'a>(records: &'a Records, router: ObjId, name: &Name) -> Option<&'a RouterPort>
    requires { IsSound records.now }
    ensures { option_copied result ≡ named_exit records.now router name.now }
{
    let port = records.router_port_named(name)?;
    if router.0 != port.router.0 {
        return None;
    }
    Some(port)
}

// The lowest-numbered port of a router that reaches the address.
fn reaching_exit(records: &Records, router: ObjId, ip: Ip4) -> Option<&RouterPort>
    requires { IsSound records.now }
    ensures { option_copied result ≡ reaching_exit records.now router ip }
{
    let mut last = None;
    while let Some(port) = records.router_port_on(router, last) {
        if reaches(port, ip) {
            return Some(port);
        }
        last = Some(port.id);
    }
    None
}

// Whether the port has a network with the address.
fn reaches(port: &RouterPort, ip: Ip4) -> bool
    ensures { result ≡ reaches ip port.now }
{
    port.nets
        .as_slice()
        .iter()
        .any(|own| is_in_network(ip, *own))
}

/// The address from which a port asks for an address: the one in the first of its networks that has it, else its first.
pub(crate) fn asking(port: &RouterPort, ip: Ip4) -> Ip4
    ensures { result ≡ asking port.now ip }
{
    match first_with(port.nets.as_slice(), ip) {
        Some(own) => own.base,
        None => first_address(port),
    }
}

// The first network that has the address.
fn first_with(nets: &[Prefix], ip: Ip4) -> Option<&Prefix>
    ensures { option_copied result ≡ find (is_in_network ip.0) nets.now }
{
    nets.iter().find(|own| is_in_network(ip, **own))
}

// The first address of a port.
fn first_address(port: &RouterPort) -> Ip4
    ensures { result ≡ first_address port.now }
{
    match port.nets.as_slice().first() {
        Some(own) => own.base,
        None => Ip4(0),
    }
}

/// Whether the address is one of the network.
pub(crate) fn is_in_network(ip: Ip4, own: Prefix) -> bool
    ensures { result ≡ is_in_network ip.0 own }
{
    let size = 1u64 << (32 - own.len);
    u64::from(ip.0) / size == u64::from(own.base.0) / size
}
