//! The inputs of the units of a port of a switch.
ghost use Rattle.std.specs.Prelude.{◌≡◌, ◌&&◌, Some, IfOk};
ghost use Rattle.nb_model.specs.Belongs.{is_to_router};
ghost use Rattle.nb_model.specs.Ports.{takes_unknown};
ghost use Rattle.nb_model.specs.Sound.{IsSound};
ghost use Rattle.net_rows.specs.Build.{peer_mac, port_acl_input, port_l2_input, port_sec_input};
ghost use Rattle.nv_table.specs.Table.{record_of};

use nb_records::{Addr, Port, PortKind};
use nb_store::Records;
use net_rows::{PortAclInput, PortL2Input, PortSecInput};
use nv_base::{Kept, Mac, Name, OutOfMemory};
use std::alloc::Global;

/// Whether a port is enabled and has the address `unknown`.
pub fn is_for_unknown(port: &Port) -> bool
    ensures { result ≡ port.now.enabled && takes_unknown port.now }
{
    port.enabled && takes_unknown(port)
}

fn takes_unknown(port: &Port) -> bool
    ensures { result ≡ takes_unknown port.now }
{
    port.addresses
        .as_slice()
        .iter()
        .any(|addr| matches!(addr, Addr::Unknown))
}

/// Whether a port leads to a router.
pub fn is_to_router(port: &Port) -> bool
    ensures { result ≡ is_to_router port.now }
{
    matches!(port.kind, PortKind::Router)
}

/// The input of the port security of a port. Where memory runs out the answer is `OutOfMemory`.
pub fn port_sec_input(alloc: Global, port: &Port) -> Result<PortSecInput, OutOfMemory>
    ensures { IfOk result (λ input. input ≡ port_sec_input port.now) }
{
    Ok(PortSecInput {
        dp: port.switch,
        name: port.name.copy(alloc)?,
        enabled: port.enabled,
        security: port.security.copy(alloc)?,
    })
}

/// The input of a port in the stages of ACLs. Where memory runs out the answer is `OutOfMemory`.
pub fn port_acl_input(alloc: Global, port: &Port) -> Result<PortAclInput, OutOfMemory>
    ensures { IfOk result (λ input. input ≡ port_acl_input port.now) }
{
    Ok(PortAclInput {
        dp: port.switch,
        name: port.name.copy(alloc)?,
    })
}

/// The input of the lookup of a port, of which the name is at hand. Where memory runs out the answer is `OutOfMemory`.
pub fn port_l2_input(
    alloc: Global,
    records: &Records,
    port: &Port,
    name: Name,
) -> Result<PortL2Input, OutOfMemory>
    requires sound { IsSound records.now }
    requires there { record_of (λ x. x.id) port.now.id records.now.ports ≡ Some port.now }
    requires name { name ≡ port.now.name }
    ensures { IfOk result (λ input. input ≡ port_l2_input records.now port.now) }
{
    Ok(PortL2Input {
        dp: port.switch,
        name,
        enabled: port.enabled,
        kind: port.kind,
        addresses: port.addresses.copy(alloc)?,
        peer_mac: peer_mac(records, port),
    })
}

// The MAC of the router port that is the port's peer.
fn peer_mac(records: &Records, port: &Port) -> Option<Mac>
    requires sound { IsSound records.now }
    requires there { record_of (λ x. x.id) port.now.id records.now.ports ≡ Some port.now }
    ensures { result ≡ peer_mac records.now port.now }
{
    match records.peer_router_port(port) {
        Some(peer) => Some(peer.mac),
        None => None,
    }
}
