//! Groups that have many ports of a switch that goes: these leave such a group all at once, so that its list is copied once.
ghost use Rattle.std.specs.Prelude.{◌≡◌, ◌&&◌, OnOk, IfOk};
ghost use Rattle.std.specs.List.{list_any};
ghost use Rattle.nb_model.specs.Effect.{without, without_ports};
ghost use Rattle.nb_model.specs.Network.{same};
ghost use Rattle.nv_table.specs.Table.{NumbersRise};
ghost use Rattle.nb_store.specs.Undo.{back_steps};

use nb_records::{Group, Numbers};
use nb_store::{Records, Work};
use nv_base::{Kept, ObjId, OutOfMemory};
use std::alloc::Global;
use std::collections::BTreeMap;

// A group has many of the ports where they are one in so many of its own, or more.
const SHARE: usize = 16;

/// Takes the ports of a switch out of the groups that have many of them. What the network is without these ports stays.
pub(crate) fn leave_large_groups(
    work: &mut Work,
    alloc: Global,
    switch: ObjId,
) -> Result<(), OutOfMemory>
    requires ports { NumbersRise (λ x. x.id) work.old.records.ports }
    requires groups { NumbersRise (λ x. x.id) work.old.records.groups }
    ensures same { OnOk result (without_ports (λ port. same switch port.switch) work.new.records ≡ without_ports (λ port. same switch port.switch) work.old.records) }
    ensures ports { OnOk result (NumbersRise (λ x. x.id) work.new.records.ports) }
    ensures groups { OnOk result (NumbersRise (λ x. x.id) work.new.records.groups) }
    ensures back { back_steps work.new.steps.items work.new.records ≡ back_steps work.old.steps.items work.old.records }
{
    let counts = counts_of(&work.records, alloc, switch)?;
    for (group, count) in counts.iter() {
        leave_if_many(work, alloc, switch, *group, *count)?;
    }
    Ok(())
}

// How many ports of a switch each group has that has one.
fn counts_of(
    records: &Records,
    alloc: Global,
    switch: ObjId,
) -> Result<BTreeMap<ObjId, usize>, OutOfMemory>
    requires ports { NumbersRise (λ x. x.id) records.now.ports }
    requires groups { NumbersRise (λ x. x.id) records.now.groups }
{
    let mut counts = BTreeMap::new(alloc);
    let mut after = None;
    while let Some(port) = records.port_on(switch, after) {
        count_groups(records, port.id, &mut counts)?;
        after = Some(port.id);
    }
    Ok(counts)
}

// Counts one port more for each group that has it.
fn count_groups(
    records: &Records,
    port: ObjId,
    counts: &mut BTreeMap<ObjId, usize>,
) -> Result<(), OutOfMemory>
    requires { NumbersRise (λ x. x.id) records.now.groups }
{
    let mut after = None;
    while let Some(group) = records.group_with(port, after) {
        let count = counts.get(&group.id).copied().unwrap_or(0);
        counts.insert(group.id, count.saturating_add(1))?;
        after = Some(group.id);
    }
    Ok(())
}

// Takes the ports of a switch out of a group that has so many of them, where these are many of its own.
fn leave_if_many(
    work: &mut Work,
    alloc: Global,
    switch: ObjId,
    group: ObjId,
    count: usize,
) -> Result<(), OutOfMemory>
    requires ports { NumbersRise (λ x. x.id) work.old.records.ports }
    requires groups { NumbersRise (λ x. x.id) work.old.records.groups }
    ensures same { OnOk result (without_ports (λ port. same switch port.switch) work.new.records ≡ without_ports (λ port. same switch port.switch) work.old.records) }
    ensures ports { OnOk result (NumbersRise (λ x. x.id) work.new.records.ports) }
    ensures groups { OnOk result (NumbersRise (λ x. x.id) work.new.records.groups) }
    ensures back { back_steps work.new.steps.items work.new.records ≡ back_steps work.old.steps.items work.old.records }
{
    let Some(held) = work.records.groups().get(group) else {
        return Ok(());
    };
    if count.saturating_mul(SHARE) < held.ports.len() {
        return Ok(());
    }
    let left = ports_elsewhere(&work.records, alloc, &held.ports, switch)?;
    let parted = Group {
        id: held.id,
        name: held.name.copy(alloc)?,
        ports: Numbers::from_slice(alloc, &left)?,
    };
    work.store_group(alloc, parted)
}

// Those of some ports that are not on a switch.
fn ports_elsewhere(
    records: &Records,
    alloc: Global,
    ports: &Numbers,
    switch: ObjId,
) -> Result<Vec<ObjId>, OutOfMemory>
    requires { NumbersRise (λ x. x.id) records.now.ports }
    ensures { IfOk result (λ left. left.items ≡ without (λ number. list_any (λ port. same port.id number && same switch port.switch) records.now.ports) ports.now) }
{
    let mut left = Vec::new(alloc);
    for at in 0..ports.len() {
        let number = ports.number_at(at);
        if !is_on(records, number, switch) {
            left.push(number)?;
        }
    }
    Ok(left)
}

// Whether there is a port of this number, and it is on a switch.
fn is_on(records: &Records, number: ObjId, switch: ObjId) -> bool
    requires { NumbersRise (λ x. x.id) records.now.ports }
    ensures { result ≡ list_any (λ port. same port.id number && same switch port.switch) records.now.ports }
{
    match records.ports().get(number) {
        Some(port) => switch.0 == port.switch.0,
        None => false,
    }
}
