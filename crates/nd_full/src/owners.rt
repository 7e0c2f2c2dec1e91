//! Which owners have the ACLs that apply to a switch.
ghost use Rattle.std.specs.Prelude.{◌≡◌, ◌++◌, IfOk, OnOk};
ghost use Rattle.nb_model.specs.Sound.{IsSound};
ghost use Rattle.nd_full.specs.inner.Owners.{AreOwners, groups_of_port, groups_on};

use nb_store::Records;
use nv_base::{ObjId, OutOfMemory};
use std::alloc::Global;

/// The owners whose ACLs apply to a switch, each once: the switch, and the groups that have a port on it.
pub(crate) fn owners_on(
    alloc: Global,
    records: &Records,
    switch: ObjId,
) -> Result<Vec<ObjId>, OutOfMemory>
    requires { IsSound records.now }
    ensures { IfOk result (λ owners. AreOwners records.now switch owners.items) }
{
    let mut owners = Vec::new(alloc);
    owners.push(switch)?;
    add_groups_on(&mut owners, records, switch)?;
    owners.sort_unstable();
    owners.dedup();
    Ok(owners)
}

// The groups of each port of the switch come after the other owners. Where there is no group, no port is asked.
fn add_groups_on(
    owners: &mut Vec<ObjId>,
    records: &Records,
    switch: ObjId,
) -> Result<(), OutOfMemory>
    requires { IsSound records.now }
    ensures { OnOk result (owners.new.items ≡ owners.old.items ++ groups_on records.now switch) }
{
    match records.groups().after(None) {
        None => Ok(()),
        Some(_) => add_groups_of_ports(owners, records, switch),
    }
}

fn add_groups_of_ports(
    owners: &mut Vec<ObjId>,
    records: &Records,
    switch: ObjId,
) -> Result<(), OutOfMemory>
    requires { IsSound records.now }
    ensures { OnOk result (owners.new.items ≡ owners.old.items ++ groups_on records.now switch) }
{
    let mut last = None;
    while let Some(port) = records.port_on(switch, last) {
        add_groups_of(owners, records, port.id)?;
        last = Some(port.id);
    }
    Ok(())
}

fn add_groups_of(owners: &mut Vec<ObjId>, records: &Records, port: ObjId) -> Result<(), OutOfMemory>
    requires { IsSound records.now }
    ensures { OnOk result (owners.new.items ≡ owners.old.items ++ groups_of_port records.now port) }
{
    let mut last = None;
    while let Some(group) = records.group_with(port, last) {
        owners.push(group.id)?;
        last = Some(group.id);
    }
    Ok(())
}
