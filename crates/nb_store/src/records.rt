//! The tables of all kinds.
ghost use Rattle.std.specs.Prelude.{◌≡◌, ◌+◌, ◌<◌, ◌^◌, true, Some};
ghost use Rattle.nb_model.specs.Network.{empty_network, next_number};
ghost use Rattle.nb_store.specs.Undo.{restored, swapped, removed, undone, back, back_steps};
ghost use Rattle.nb_store.specs.Touched.{place_of, place_of_lean};
ghost use Rattle.nb_store.specs.inner.Held.{held, is_fitting, swaps_back, RisesAt};

use crate::step::{LeanObject, Object, Place, Step};
use crate::undo::Undo;
use nb_records::{Acl, AddrSet, Binding, Group, Lb, Nat, Port, Route, Router, RouterPort, Switch};
use nv_base::ObjId;
use nv_table::Table;
use std::marker::Model;

/// The records of the network, a table a kind, and the number that the next object gets. A clause sees the network, which need not
/// be sound.
#[derive(Drop)]
pub struct Records {
    pub(crate) switches: Table<Switch>,
    pub(crate) ports: Table<Port>,
    pub(crate) routers: Table<Router>,
    pub(crate) router_ports: Table<RouterPort>,
    pub(crate) routes: Table<Route>,
    pub(crate) nats: Table<Nat>,
    pub(crate) lbs: Table<Lb>,
    pub(crate) acls: Table<Acl>,
    pub(crate) sets: Table<AddrSet>,
    pub(crate) groups: Table<Group>,
    pub(crate) bindings: Table<Binding>,
    pub(crate) next: u32,
}

impl Model for Records {
    ghost use Rattle.std.specs.Coded.{codes};
    ghost use Rattle.nb_records.specs.contracts.acl.Acl as acl;
    ghost use Rattle.nb_model.specs.Network.{Network};

    ghost Value = { Network };

    ghost coded = { Prim.hlevel (codes, acl.the_row.coded) };

    ghost view = { λ r. record { switches = r.switches; ports = r.ports; routers = r.routers; router_ports = r.router_ports; routes = r.routes; nats = r.nats; lbs = r.lbs; acls = r.acls; sets = r.sets; groups = r.groups; bindings = r.bindings; next = r.next } };
}

impl Records {
    /// The network without objects. It takes no memory.
    pub fn new() -> Self
        ensures { result ≡ empty_network }
    {
        Records {
            switches: Table::new(),
            ports: Table::new(),
            routers: Table::new(),
            router_ports: Table::new(),
            routes: Table::new(),
            nats: Table::new(),
            lbs: Table::new(),
            acls: Table::new(),
            sets: Table::new(),
            groups: Table::new(),
            bindings: Table::new(),
            next: 1,
        }
    }

    /// The next number, which is then taken.
    pub(crate) fn take_number(&mut self) -> ObjId
        requires { self.old.next + 1 < 2 ^ 32 }
        ensures number { result ≡ next_number self.old }
        ensures next { self.new ≡ record self.old { next = self.old.next + 1 } }
    {
        let number = ObjId(self.next);
        self.next += 1;
        number
    }

    /// Undoes an edit. It takes no memory.
    pub fn undo(&mut self, undo: Undo)
        ensures { self.new ≡ back undo self.old }
    {
        self.undo_all(undo.steps);
    }

    /// Undoes one change.
    pub(crate) fn undo_step(&mut self, step: Step)
        ensures { self.new ≡ undone step self.old }
    {
        match step {
            Step::Restore(object) => drop(self.exchange(object)),
            Step::Swap(lean, number) => self.swap_by(lean, number),
            Step::Remove(place) => drop(self.take(place)),
            Step::Next(next) => self.next = next,
        }
    }

    /// Undoes changes, the last one first.
    pub(crate) fn undo_all(&mut self, mut steps: Vec<Step>)
        ensures { self.new ≡ back_steps steps.items self.old }
    {
        while let Some(step) = steps.pop() {
            self.undo_step(step);
        }
    }

    /// Puts an object in place of the one of its kind and number, and answers that one.
    pub(crate) fn exchange(&mut self, object: Object) -> Option<Object>
        ensures old { result ≡ held (place_of object) self.old }
        ensures new { self.new ≡ restored object self.old }
        ensures rise { RisesAt (place_of object) self.old }
    {
        Some(match object {
            Object::Switch(loose) => Object::Switch(self.switches.exchange(loose)?),
            Object::Port(loose) => Object::Port(self.ports.exchange(loose)?),
            Object::Router(loose) => Object::Router(self.routers.exchange(loose)?),
            Object::RouterPort(loose) => Object::RouterPort(self.router_ports.exchange(loose)?),
            Object::Route(loose) => Object::Route(self.routes.exchange(loose)?),
            Object::Nat(loose) => Object::Nat(self.nats.exchange(loose)?),
            Object::Lb(loose) => Object::Lb(self.lbs.exchange(loose)?),
            Object::Acl(loose) => Object::Acl(self.acls.exchange(loose)?),
            Object::Set(loose) => Object::Set(self.sets.exchange(loose)?),
            Object::Group(loose) => Object::Group(self.groups.exchange(loose)?),
            Object::Binding(loose) => Object::Binding(self.bindings.exchange(loose)?),
        })
    }

    /// Puts a record in place of the one of its number, where the two differ by its one number, and answers that one, which swaps back.
    /// Where they do not, nothing changes.
    pub(crate) fn swap(&mut self, lean: LeanObject) -> Option<LeanObject>
        ensures old { result ≡ swaps_back lean self.old }
        ensures new { self.new ≡ swapped lean self.old }
        ensures rise { RisesAt (place_of_lean lean) self.old }
    {
        Some(match lean {
            LeanObject::Switch(lean) => LeanObject::Switch(self.switches.swap(lean)?),
            LeanObject::Router(lean) => LeanObject::Router(self.routers.swap(lean)?),
            LeanObject::Group(lean) => LeanObject::Group(self.groups.swap(lean)?),
        })
    }

    /// Puts a record in place of the one of its number, from which it differs by its one number, and answers that one, which swaps back.
    /// It compares no lists.
    pub(crate) fn swap_fitting(&mut self, lean: LeanObject) -> LeanObject
        requires { is_fitting lean self.old ≡ true }
        ensures old { Some result ≡ swaps_back lean self.old }
        ensures new { self.new ≡ swapped lean self.old }
        ensures rise { RisesAt (place_of_lean lean) self.old }
    {
        match lean {
            LeanObject::Switch(lean) => LeanObject::Switch(self.switches.swap_fitting(lean)),
            LeanObject::Router(lean) => LeanObject::Router(self.routers.swap_fitting(lean)),
            LeanObject::Group(lean) => LeanObject::Group(self.groups.swap_fitting(lean)),
        }
    }

    /// Takes the object of a kind and number out. Where there is none, nothing changes.
    pub(crate) fn take(&mut self, place: Place) -> Option<Object>
        ensures old { result ≡ held place self.old }
        ensures new { self.new ≡ removed place self.old }
        ensures rise { RisesAt place self.old }
    {
        Some(match place {
            Place::Switch(number) => Object::Switch(self.switches.take(number)?),
            Place::Port(number) => Object::Port(self.ports.take(number)?),
            Place::Router(number) => Object::Router(self.routers.take(number)?),
            Place::RouterPort(number) => Object::RouterPort(self.router_ports.take(number)?),
            Place::Route(number) => Object::Route(self.routes.take(number)?),
            Place::Nat(number) => Object::Nat(self.nats.take(number)?),
            Place::Lb(number) => Object::Lb(self.lbs.take(number)?),
            Place::Acl(number) => Object::Acl(self.acls.take(number)?),
            Place::Set(number) => Object::Set(self.sets.take(number)?),
            Place::Group(number) => Object::Group(self.groups.take(number)?),
            Place::Binding(number) => Object::Binding(self.bindings.take(number)?),
        })
    }
}
