//! Records put in place of those of their numbers.
ghost use Rattle.std.specs.Prelude.{◌≡◌, OnOk};
ghost use Rattle.nv_table.specs.Table.{with_exchanged};
ghost use Rattle.nb_store.specs.Undo.{back_steps};

use crate::step::Object;
use crate::work::Work;
use nb_records::{Acl, AddrSet, Binding, Group, Lb, Nat, Port, Route, Router, RouterPort, Switch};
use nv_base::OutOfMemory;
use nv_table::Loose;
use std::alloc::Global;

impl Work {
    /// Puts a switch in place of the one of its number, or in where there is none.
    /// After `OutOfMemory` nothing has changed. Not from OVN.
    pub fn store_switch(&mut self, alloc: Global, switch: Switch) -> Result<(), OutOfMemory>
        ensures ok { OnOk result (self.new.records ≡ record self.old.records { switches = with_exchanged (λ x. x.id) switch self.old.records.switches }) }
        ensures back { back_steps self.new.steps.items self.new.records ≡ back_steps self.old.steps.items self.old.records }
    {
        match self.records.lean_switch(alloc, switch)? {
            Ok(lean) => self.swap(lean),
            Err(switch) => self.store(Object::Switch(Loose::new(alloc, switch)?)),
        }
    }

    /// Puts a port of a switch in place of the one of its number, or in where there is none.
    /// After `OutOfMemory` nothing has changed. Not from OVN.
    pub fn store_port(&mut self, alloc: Global, port: Port) -> Result<(), OutOfMemory>
        ensures ok { OnOk result (self.new.records ≡ record self.old.records { ports = with_exchanged (λ x. x.id) port self.old.records.ports }) }
        ensures back { back_steps self.new.steps.items self.new.records ≡ back_steps self.old.steps.items self.old.records }
    {
        self.store(Object::Port(Loose::new(alloc, port)?))
    }

    /// Puts a router in place of the one of its number, or in where there is none.
    /// After `OutOfMemory` nothing has changed. Not from OVN.
    pub fn store_router(&mut self, alloc: Global, router: Router) -> Result<(), OutOfMemory>
        ensures ok { OnOk result (self.new.records ≡ record self.old.records { routers = with_exchanged (λ x. x.id) router self.old.records.routers }) }
        ensures back { back_steps self.new.steps.items self.new.records ≡ back_steps self.old.steps.items self.old.records }
    {
        match self.records.lean_router(alloc, router)? {
            Ok(lean) => self.swap(lean),
            Err(router) => self.store(Object::Router(Loose::new(alloc, router)?)),
        }
    }

    /// Puts a port of a router in place of the one of its number, or in where there is none.
    /// After `OutOfMemory` nothing has changed. Not from OVN.
    pub fn store_router_port(
        &mut self,
        alloc: Global,
        router_port: RouterPort,
    ) -> Result<(), OutOfMemory>
        ensures ok { OnOk result (self.new.records ≡ record self.old.records { router_ports = with_exchanged (λ x. x.id) router_port self.old.records.router_ports }) }
        ensures back { back_steps self.new.steps.items self.new.records ≡ back_steps self.old.steps.items self.old.records }
    {
        self.store(Object::RouterPort(Loose::new(alloc, router_port)?))
    }

    /// Puts a route in place of the one of its number, or in where there is none.
    /// After `OutOfMemory` nothing has changed. Not from OVN.
    pub fn store_route(&mut self, alloc: Global, route: Route) -> Result<(), OutOfMemory>
        ensures ok { OnOk result (self.new.records ≡ record self.old.records { routes = with_exchanged (λ x. x.id) route self.old.records.routes }) }
        ensures back { back_steps self.new.steps.items self.new.records ≡ back_steps self.old.steps.items self.old.records }
    {
        self.store(Object::Route(Loose::new(alloc, route)?))
    }

    /// Puts a NAT rule in place of the one of its number, or in where there is none.
    /// After `OutOfMemory` nothing has changed. Not from OVN.
    pub fn store_nat(&mut self, alloc: Global, nat: Nat) -> Result<(), OutOfMemory>
        ensures ok { OnOk result (self.new.records ≡ record self.old.records { nats = with_exchanged (λ x. x.id) nat self.old.records.nats }) }
        ensures back { back_steps self.new.steps.items self.new.records ≡ back_steps self.old.steps.items self.old.records }
    {
        self.store(Object::Nat(Loose::new(alloc, nat)?))
    }

    /// Puts a load balancer in place of the one of its number, or in where there is none.
    /// After `OutOfMemory` nothing has changed. Not from OVN.
    pub fn store_lb(&mut self, alloc: Global, lb: Lb) -> Result<(), OutOfMemory>
        ensures ok { OnOk result (self.new.records ≡ record self.old.records { lbs = with_exchanged (λ x. x.id) lb self.old.records.lbs }) }
        ensures back { back_steps self.new.steps.items self.new.records ≡ back_steps self.old.steps.items self.old.records }
    {
        self.store(Object::Lb(Loose::new(alloc, lb)?))
    }

    /// Puts an ACL in place of the one of its number, or in where there is none.
    /// After `OutOfMemory` nothing has changed. Not from OVN.
    pub fn store_acl(&mut self, alloc: Global, acl: Acl) -> Result<(), OutOfMemory>
        ensures ok { OnOk result (self.new.records ≡ record self.old.records { acls = with_exchanged (λ x. x.id) acl self.old.records.acls }) }
        ensures back { back_steps self.new.steps.items self.new.records ≡ back_steps self.old.steps.items self.old.records }
    {
        self.store(Object::Acl(Loose::new(alloc, acl)?))
    }

    /// Puts an address set in place of the one of its number, or in where there is none.
    /// After `OutOfMemory` nothing has changed. Not from OVN.
    pub fn store_set(&mut self, alloc: Global, set: AddrSet) -> Result<(), OutOfMemory>
        ensures ok { OnOk result (self.new.records ≡ record self.old.records { sets = with_exchanged (λ x. x.id) set self.old.records.sets }) }
        ensures back { back_steps self.new.steps.items self.new.records ≡ back_steps self.old.steps.items self.old.records }
    {
        self.store(Object::Set(Loose::new(alloc, set)?))
    }

    /// Puts a port group in place of the one of its number, or in where there is none.
    /// After `OutOfMemory` nothing has changed. Not from OVN.
    pub fn store_group(&mut self, alloc: Global, group: Group) -> Result<(), OutOfMemory>
        ensures ok { OnOk result (self.new.records ≡ record self.old.records { groups = with_exchanged (λ x. x.id) group self.old.records.groups }) }
        ensures back { back_steps self.new.steps.items self.new.records ≡ back_steps self.old.steps.items self.old.records }
    {
        match self.records.lean_group(alloc, group)? {
            Ok(lean) => self.swap(lean),
            Err(group) => self.store(Object::Group(Loose::new(alloc, group)?)),
        }
    }

    /// Puts a static binding in place of the one of its number, or in where there is none.
    /// After `OutOfMemory` nothing has changed. Not from OVN.
    pub fn store_binding(&mut self, alloc: Global, binding: Binding) -> Result<(), OutOfMemory>
        ensures ok { OnOk result (self.new.records ≡ record self.old.records { bindings = with_exchanged (λ x. x.id) binding self.old.records.bindings }) }
        ensures back { back_steps self.new.steps.items self.new.records ≡ back_steps self.old.steps.items self.old.records }
    {
        self.store(Object::Binding(Loose::new(alloc, binding)?))
    }
}
