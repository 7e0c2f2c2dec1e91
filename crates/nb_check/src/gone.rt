//! Which ports of switches, ports of routers and routers the edits of a line remove.
ghost use Rattle.std.specs.Prelude.{◌≡◌, ◌++◌, OnOk, filter};
ghost use Rattle.std.specs.List.{flat_map};
ghost use Rattle.nb_model.specs.Network.{same};
ghost use Rattle.nb_model.specs.Sound.{IsSound};
ghost use Rattle.nb_check.specs.inner.Going.{below, given, no_objects, ports_of, removed_ports, removed_router_ports, removed_routers, router_ports_of, with_removed};

use crate::changes::GoneObjects;
use nb_records::Edit;
use nb_store::Records;
use nv_base::{Items, Name, ObjId, OutOfMemory};
use std::alloc::Global;

/// The numbers of the objects that edits removed, of those that were there at first.
#[derive(Drop)]
pub(crate) struct Gone {
    // The number that the next object got at first.
    pub(crate) first: u32,
    pub(crate) objects: GoneObjects,
}

impl Gone {
    /// None, before the first edit. It takes no memory.
    pub(crate) fn new(alloc: Global, records: &Records) -> Self
        ensures first { result.first ≡ records.now.next }
        ensures none { result.objects ≡ no_objects }
    {
        Gone {
            first: records.next(),
            objects: GoneObjects {
                ports: Items::new(alloc),
                router_ports: Items::new(alloc),
                routers: Items::new(alloc),
            },
        }
    }

    /// Notes the objects that an edit will remove.
    pub(crate) fn note(&mut self, records: &Records, edit: &Edit) -> Result<(), OutOfMemory>
        requires { IsSound records.now }
        ensures noted { OnOk result (self.new.objects ≡ with_removed self.old.first records.now edit.now self.old.objects) }
        ensures first { self.new.first ≡ self.old.first }
    {
        note_ports(records, edit, self.first, &mut self.objects.ports)?;
        note_router_ports(records, edit, self.first, &mut self.objects.router_ports)?;
        note_routers(records, edit, self.first, &mut self.objects.routers)
    }
}

// Notes the ports of switches that an edit will remove.
fn note_ports(
    records: &Records,
    edit: &Edit,
    first: u32,
    numbers: &mut Items<ObjId>,
) -> Result<(), OutOfMemory>
    requires { IsSound records.now }
    ensures { OnOk result (numbers.new ≡ numbers.old ++ flat_map (below first) (removed_ports records.now edit.now)) }
{
    match edit {
        Edit::LsDel { name, .. } => note_ports_of(records, name, first, numbers),
        Edit::LspDel { port, .. } => note_given(records.port_id(port), first, numbers),
        _ => Ok(()),
    }
}

// Notes the ports of routers that an edit will remove.
fn note_router_ports(
    records: &Records,
    edit: &Edit,
    first: u32,
    numbers: &mut Items<ObjId>,
) -> Result<(), OutOfMemory>
    requires { IsSound records.now }
    ensures { OnOk result (numbers.new ≡ numbers.old ++ flat_map (below first) (removed_router_ports records.now edit.now)) }
{
    match edit {
        Edit::LrDel { name, .. } => note_router_ports_of(records, name, first, numbers),
        Edit::LrpDel { port, .. } => note_given(records.router_port_id(port), first, numbers),
        _ => Ok(()),
    }
}

// Notes the router that an edit will remove.
fn note_routers(
    records: &Records,
    edit: &Edit,
    first: u32,
    numbers: &mut Items<ObjId>,
) -> Result<(), OutOfMemory>
    ensures { OnOk result (numbers.new ≡ numbers.old ++ flat_map (below first) (removed_routers records.now edit.now)) }
{
    match edit {
        Edit::LrDel { name, .. } => note_given(records.router_id(name), first, numbers),
        _ => Ok(()),
    }
}

// Notes the ports of the switch of a name.
fn note_ports_of(
    records: &Records,
    name: &Name,
    first: u32,
    numbers: &mut Items<ObjId>,
) -> Result<(), OutOfMemory>
    requires { IsSound records.now }
    ensures { OnOk result (numbers.new ≡ numbers.old ++ flat_map (below first) (ports_of records.now name.now)) }
{
    match records.switch_id(name) {
        Some(switch) => note_ports_on(records, switch, first, numbers),
        None => Ok(()),
    }
}

// Notes the ports of a switch.
fn note_ports_on(
    records: &Records,
    switch: ObjId,
    first: u32,
    numbers: &mut Items<ObjId>,
) -> Result<(), OutOfMemory>
    requires { IsSound records.now }
    ensures { OnOk result (numbers.new ≡ numbers.old ++ flat_map (λ port. below first port.id) (filter (λ port. same switch port.switch) records.now.ports)) }
{
    let mut last = None;
    while let Some(port) = records.port_on(switch, last) {
        note_number(port.id, first, numbers)?;
        last = Some(port.id);
    }
    Ok(())
}

// Notes the ports of the router of a name.
fn note_router_ports_of(
    records: &Records,
    name: &Name,
    first: u32,
    numbers: &mut Items<ObjId>,
) -> Result<(), OutOfMemory>
    requires { IsSound records.now }
    ensures { OnOk result (numbers.new ≡ numbers.old ++ flat_map (below first) (router_ports_of records.now name.now)) }
{
    match records.router_id(name) {
        Some(router) => note_router_ports_on(records, router, first, numbers),
        None => Ok(()),
    }
}

// Notes the ports of a router.
fn note_router_ports_on(
    records: &Records,
    router: ObjId,
    first: u32,
    numbers: &mut Items<ObjId>,
) -> Result<(), OutOfMemory>
    requires { IsSound records.now }
    ensures { OnOk result (numbers.new ≡ numbers.old ++ flat_map (λ port. below first port.id) (filter (λ port. same router port.router) records.now.router_ports)) }
{
    let mut last = None;
    while let Some(port) = records.router_port_on(router, last) {
        note_number(port.id, first, numbers)?;
        last = Some(port.id);
    }
    Ok(())
}

// Notes the number of an object, if it is there.
fn note_given(
    found: Option<ObjId>,
    first: u32,
    numbers: &mut Items<ObjId>,
) -> Result<(), OutOfMemory>
    ensures { OnOk result (numbers.new ≡ numbers.old ++ flat_map (below first) (given found)) }
{
    match found {
        Some(number) => note_number(number, first, numbers),
        None => Ok(()),
    }
}

// Notes a number that is below the first.
fn note_number(number: ObjId, first: u32, numbers: &mut Items<ObjId>) -> Result<(), OutOfMemory>
    ensures { OnOk result (numbers.new ≡ numbers.old ++ below first number) }
{
    if number.0 < first {
        numbers.push(number)?;
    }
    Ok(())
}
