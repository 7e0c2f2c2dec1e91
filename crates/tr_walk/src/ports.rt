//! The multicast groups of a switch.
ghost use Rattle.std.specs.Prelude.{◌≡◌, ◌++◌, IfOk, OnOk};
ghost use Rattle.nb_model.specs.Network.{Network};
ghost use Rattle.nb_model.specs.Sound.{IsSound};
ghost use Rattle.nb_model.specs.Ports.{takes_unknown};
ghost use Rattle.tr_walk.specs.Machine.{target_of};
ghost use Rattle.tr_walk.specs.inner.Sides.{is_member, numbers_in, ports_of, target};

use nb_records::{Addr, Port};
use nb_store::Records;
use nv_base::{FLOOD_NUMBER, ObjId, OutOfMemory, UNKNOWN_NUMBER};
use std::alloc::Global;

/// A multicast group of a switch.
#[derive(Clone, Copy)]
pub(crate) enum Group {
    /// Each enabled port.
    Flood,
    /// Each enabled port for unknown addresses.
    Unknown,
}

/// The multicast group of this number, if it is one's and no port's.
pub(crate) fn group_of(number: ObjId) -> Option<Group>
    ensures { (net : Network) (switch : ObjId) → target_of net switch number.0 ≡ target net switch number result }
{
    match number.0 {
        FLOOD_NUMBER => Some(Group::Flood),
        UNKNOWN_NUMBER => Some(Group::Unknown),
        _ => None,
    }
}

/// The ports of a group, on a switch.
pub(crate) fn ports_of(
    alloc: Global,
    records: &Records,
    switch: ObjId,
    group: Group,
) -> Result<Vec<ObjId>, OutOfMemory>
    requires { IsSound records.now }
    ensures { IfOk result (λ ports. ports.items ≡ ports_of records.now switch group) }
{
    let mut ports = Vec::new(alloc);
    let mut last = None;
    while let Some(port) = records.port_on(switch, last) {
        add_member(&mut ports, group, port)?;
        last = Some(port.id);
    }
    Ok(ports)
}

fn add_member(ports: &mut Vec<ObjId>, group: Group, port: &Port) -> Result<(), OutOfMemory>
    ensures { OnOk result (ports.new.items ≡ ports.old.items ++ numbers_in group port.now) }
{
    if is_member(group, port) {
        ports.push(port.id)?;
    }
    Ok(())
}

fn is_member(group: Group, port: &Port) -> bool
    ensures { result ≡ is_member group port.now }
{
    match group {
        Group::Flood => port.enabled,
        Group::Unknown => port.enabled && takes_unknown(port),
    }
}

fn takes_unknown(port: &Port) -> bool
    ensures { result ≡ takes_unknown port.now }
{
    port.addresses
        .as_slice()
        .iter()
        .any(|addr| matches!(addr, Addr::Unknown))
}
