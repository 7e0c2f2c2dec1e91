//! Ports that are removed from their switches and their groups.
ghost use Rattle.std.specs.Prelude.{◌≡◌, OnOk};
ghost use Rattle.nb_model.specs.Effect.{without_ports};
ghost use Rattle.nb_model.specs.Network.{same};
ghost use Rattle.nb_model.specs.Sound.{AreInOrder};
ghost use Rattle.nv_table.specs.Table.{NumbersRise, without_number};
ghost use Rattle.nb_store.specs.Undo.{back_steps};
ghost use Rattle.nb_change.specs.inner.Leaving.{leaving, without_switch};

use crate::large_groups::leave_large_groups;
use crate::owned::drop_all;
use nb_records::Acl;
use nb_store::{Place, Work};
use nv_base::{ObjId, OutOfMemory};
use std::alloc::Global;

/// Removes a port, which leaves its groups.
pub(crate) fn remove_port(work: &mut Work, alloc: Global, port: ObjId) -> Result<(), OutOfMemory>
    requires rise { NumbersRise (λ x. x.id) work.old.records.groups }
    ensures ok { OnOk result (work.new.records ≡ record work.old.records { ports = without_number (λ x. x.id) port work.old.records.ports; groups = leaving port work.old.records.groups }) }
    ensures back { back_steps work.new.steps.items work.new.records ≡ back_steps work.old.steps.items work.old.records }
{
    leave_groups(work, alloc, port)?;
    work.remove(Place::Port(port))
}

/// Removes a switch, with its ports and its ACLs.
pub(crate) fn remove_switch(
    work: &mut Work,
    alloc: Global,
    switch: ObjId,
) -> Result<(), OutOfMemory>
    requires order { AreInOrder work.old.records }
    ensures ok { OnOk result (work.new.records ≡ without_switch switch work.old.records) }
    ensures back { back_steps work.new.steps.items work.new.records ≡ back_steps work.old.steps.items work.old.records }
{
    remove_ports_on(work, alloc, switch)?;
    drop_all::<Acl>(work, switch)?;
    work.remove(Place::Switch(switch))
}

// Removes the ports of a switch, which leave their groups: those of which they are many at once, and the others one by one.
fn remove_ports_on(work: &mut Work, alloc: Global, switch: ObjId) -> Result<(), OutOfMemory>
    requires ports { NumbersRise (λ x. x.id) work.old.records.ports }
    requires groups { NumbersRise (λ x. x.id) work.old.records.groups }
    ensures ok { OnOk result (work.new.records ≡ without_ports (λ port. same switch port.switch) work.old.records) }
    ensures back { back_steps work.new.steps.items work.new.records ≡ back_steps work.old.steps.items work.old.records }
{
    leave_large_groups(work, alloc, switch)?;
    remove_each_port_on(work, alloc, switch)
}

// Removes the ports of a switch one by one.
fn remove_each_port_on(work: &mut Work, alloc: Global, switch: ObjId) -> Result<(), OutOfMemory>
    requires ports { NumbersRise (λ x. x.id) work.old.records.ports }
    requires groups { NumbersRise (λ x. x.id) work.old.records.groups }
    ensures ok { OnOk result (work.new.records ≡ without_ports (λ port. same switch port.switch) work.old.records) }
    ensures back { back_steps work.new.steps.items work.new.records ≡ back_steps work.old.steps.items work.old.records }
{
    while let Some(port) = work.records.port_on(switch, None) {
        let number = port.id;
        remove_port(work, alloc, number)?;
    }
    Ok(())
}

// Takes a port out of the groups that list it.
fn leave_groups(work: &mut Work, alloc: Global, port: ObjId) -> Result<(), OutOfMemory>
    requires rise { NumbersRise (λ x. x.id) work.old.records.groups }
    ensures ok { OnOk result (work.new.records ≡ record work.old.records { groups = leaving port work.old.records.groups }) }
    ensures back { back_steps work.new.steps.items work.new.records ≡ back_steps work.old.steps.items work.old.records }
{
    while let Some(group) = work.records.group_with(port, None) {
        let number = group.id;
        work.unlist_in_group(alloc, number, port)?;
    }
    Ok(())
}
