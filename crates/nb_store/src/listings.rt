//! Numbers put into the lists of records, and taken out of them. Where a list has one number more then, or one less, no lists are
//! compared.
ghost use Rattle.std.specs.Prelude.{◌≡◌, OnOk};
ghost use Rattle.nb_model.specs.Effect.{each_where, with_number, without};
ghost use Rattle.nb_model.specs.Network.{same};
ghost use Rattle.nb_store.specs.Undo.{back_steps};

use crate::numbers::{is_among, with_last, without_number, without_shared};
use crate::step::LeanObject;
use crate::work::Work;
use nb_records::{Group, Router, Switch};
use nv_base::{Kept, ObjId, OutOfMemory};
use nv_table::Lean;
use std::alloc::Global;

// Among the tags of a record the name comes first, so that of a number stands one place later than the number in its list.
impl Work {
    /// Attaches a load balancer to the switch of a number, last, where it is not attached. Where there is no such switch, nothing
    /// changes. After `OutOfMemory` nothing has changed. Not from OVN.
    pub fn list_on_switch(
        &mut self,
        alloc: Global,
        switch: ObjId,
        lb: ObjId,
    ) -> Result<(), OutOfMemory>
        ensures ok { OnOk result (self.new.records ≡ record self.old.records { switches = each_where (λ x. same switch x.id) (λ x. record x { lbs = with_number lb x.lbs }) self.old.records.switches }) }
        ensures back { back_steps self.new.steps.items self.new.records ≡ back_steps self.old.steps.items self.old.records }
    {
        let Some(held) = self.records.switches().get(switch) else {
            return Ok(());
        };
        let listed = held.lbs.as_slice();
        if is_among(lb, listed) {
            return Ok(());
        }
        let place = listed.len() + 1;
        let longer = Switch {
            id: held.id,
            name: held.name.copy(alloc)?,
            lbs: with_last(alloc, listed, lb)?,
        };
        let lean = Lean::longer(alloc, longer, place)?;
        self.swap(LeanObject::Switch(lean))
    }

    /// Attaches a load balancer to the router of a number, last, where it is not attached. Where there is no such router, nothing
    /// changes. After `OutOfMemory` nothing has changed. Not from OVN.
    pub fn list_on_router(
        &mut self,
        alloc: Global,
        router: ObjId,
        lb: ObjId,
    ) -> Result<(), OutOfMemory>
        ensures ok { OnOk result (self.new.records ≡ record self.old.records { routers = each_where (λ x. same router x.id) (λ x. record x { lbs = with_number lb x.lbs }) self.old.records.routers }) }
        ensures back { back_steps self.new.steps.items self.new.records ≡ back_steps self.old.steps.items self.old.records }
    {
        let Some(held) = self.records.routers().get(router) else {
            return Ok(());
        };
        let listed = held.lbs.as_slice();
        if is_among(lb, listed) {
            return Ok(());
        }
        let place = listed.len() + 1;
        let longer = Router {
            id: held.id,
            name: held.name.copy(alloc)?,
            lbs: with_last(alloc, listed, lb)?,
        };
        let lean = Lean::longer(alloc, longer, place)?;
        self.swap(LeanObject::Router(lean))
    }

    /// Detaches a load balancer from the switch of a number. Where there is no such switch, nothing changes. After `OutOfMemory`
    /// nothing has changed. Not from OVN.
    pub fn unlist_on_switch(
        &mut self,
        alloc: Global,
        switch: ObjId,
        lb: ObjId,
    ) -> Result<(), OutOfMemory>
        ensures ok { OnOk result (self.new.records ≡ record self.old.records { switches = each_where (λ x. same switch x.id) (λ x. record x { lbs = without (same lb) x.lbs }) self.old.records.switches }) }
        ensures back { back_steps self.new.steps.items self.new.records ≡ back_steps self.old.steps.items self.old.records }
    {
        let Some(held) = self.records.switches().get(switch) else {
            return Ok(());
        };
        let (lbs, only) = without_number(alloc, held.lbs.as_slice(), lb)?;
        let left = Switch {
            id: held.id,
            name: held.name.copy(alloc)?,
            lbs,
        };
        match only {
            Some(at) => self.swap(LeanObject::Switch(Lean::shorter(left, at + 1))),
            None => self.store_switch(alloc, left),
        }
    }

    /// Detaches a load balancer from the router of a number. Where there is no such router, nothing changes. After `OutOfMemory`
    /// nothing has changed. Not from OVN.
    pub fn unlist_on_router(
        &mut self,
        alloc: Global,
        router: ObjId,
        lb: ObjId,
    ) -> Result<(), OutOfMemory>
        ensures ok { OnOk result (self.new.records ≡ record self.old.records { routers = each_where (λ x. same router x.id) (λ x. record x { lbs = without (same lb) x.lbs }) self.old.records.routers }) }
        ensures back { back_steps self.new.steps.items self.new.records ≡ back_steps self.old.steps.items self.old.records }
    {
        let Some(held) = self.records.routers().get(router) else {
            return Ok(());
        };
        let (lbs, only) = without_number(alloc, held.lbs.as_slice(), lb)?;
        let left = Router {
            id: held.id,
            name: held.name.copy(alloc)?,
            lbs,
        };
        match only {
            Some(at) => self.swap(LeanObject::Router(Lean::shorter(left, at + 1))),
            None => self.store_router(alloc, left),
        }
    }

    /// Takes a port out of the group of a number. Where there is no such group, nothing changes. After `OutOfMemory` nothing has
    /// changed. Not from OVN.
    pub fn unlist_in_group(
        &mut self,
        alloc: Global,
        group: ObjId,
        port: ObjId,
    ) -> Result<(), OutOfMemory>
        ensures ok { OnOk result (self.new.records ≡ record self.old.records { groups = each_where (λ x. same group x.id) (λ x. record x { ports = without (same port) x.ports }) self.old.records.groups }) }
        ensures back { back_steps self.new.steps.items self.new.records ≡ back_steps self.old.steps.items self.old.records }
    {
        let Some(held) = self.records.groups().get(group) else {
            return Ok(());
        };
        let (ports, only) = without_shared(alloc, &held.ports, port)?;
        let left = Group {
            id: held.id,
            name: held.name.copy(alloc)?,
            ports,
        };
        match only {
            Some(at) => self.swap(LeanObject::Group(Lean::shorter(left, at + 1))),
            None => self.store_group(alloc, left),
        }
    }
}
