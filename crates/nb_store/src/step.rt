//! What undoes a change of the tables.
ghost use Rattle.std.specs.Prelude.{◌≡◌};
ghost use Rattle.nb_store.specs.Touched.{place_of, place_of_lean, touched_by};

use nb_records::{Acl, AddrSet, Binding, Group, Lb, Nat, Port, Route, Router, RouterPort, Switch};
use nv_base::ObjId;
use nv_table::{Lean, Loose};

/// A record of the network, with the room that it takes in its table.
#[derive(Drop)]
pub(crate) enum Object {
    Switch(Loose<Switch>),
    Port(Loose<Port>),
    Router(Loose<Router>),
    RouterPort(Loose<RouterPort>),
    Route(Loose<Route>),
    Nat(Loose<Nat>),
    Lb(Loose<Lb>),
    Acl(Loose<Acl>),
    Set(Loose<AddrSet>),
    Group(Loose<Group>),
    Binding(Loose<Binding>),
}

/// A record that lists one number more, or one less, than the one whose place it takes.
#[derive(Drop)]
pub(crate) enum LeanObject {
    Switch(Lean<Switch>),
    Router(Lean<Router>),
    Group(Lean<Group>),
}

/// The number of an object, by its kind. Places are in the order of their kinds, and of one kind in that of their numbers.
#[derive(Clone, Copy, PartialEq, Eq, PartialOrd, Ord)]
pub enum Place {
    /// Of a switch.
    Switch(ObjId),
    /// Of a port of a switch.
    Port(ObjId),
    /// Of a router.
    Router(ObjId),
    /// Of a port of a router.
    RouterPort(ObjId),
    /// Of a static route.
    Route(ObjId),
    /// Of a NAT rule.
    Nat(ObjId),
    /// Of a load balancer.
    Lb(ObjId),
    /// Of an ACL.
    Acl(ObjId),
    /// Of an address set.
    Set(ObjId),
    /// Of a port group.
    Group(ObjId),
    /// Of a static binding.
    Binding(ObjId),
}

/// What a change touches. Touches are in the order of what they say, and then in that of places and of numbers.
#[derive(Clone, Copy, PartialEq, Eq, PartialOrd, Ord)]
pub enum Touch {
    /// A record that came, went or changed.
    Whole(Place),
    /// A number that came to, or went from, what a record lists: the ports of a group, or the load balancers of a switch or of a
    /// router. All else of the record is as before.
    Listed(Place, ObjId),
}

/// What undoes one change. It takes no memory.
#[derive(Drop)]
pub(crate) enum Step {
    /// Put this record in place of the one of its number, or back where there is none.
    Restore(Object),
    /// Put this record in place of the one of its number, where the two differ by this number that they list.
    Swap(LeanObject, ObjId),
    /// Remove the record of this number.
    Remove(Place),
    /// Set the next number to this one.
    Next(u32),
}

impl Object {
    /// Its kind and its number.
    pub(crate) fn place(&self) -> Place
        ensures { result ≡ place_of self.now }
    {
        match self {
            Object::Switch(loose) => Place::Switch(loose.record().id),
            Object::Port(loose) => Place::Port(loose.record().id),
            Object::Router(loose) => Place::Router(loose.record().id),
            Object::RouterPort(loose) => Place::RouterPort(loose.record().id),
            Object::Route(loose) => Place::Route(loose.record().id),
            Object::Nat(loose) => Place::Nat(loose.record().id),
            Object::Lb(loose) => Place::Lb(loose.record().id),
            Object::Acl(loose) => Place::Acl(loose.record().id),
            Object::Set(loose) => Place::Set(loose.record().id),
            Object::Group(loose) => Place::Group(loose.record().id),
            Object::Binding(loose) => Place::Binding(loose.record().id),
        }
    }
}

impl LeanObject {
    /// Its kind and its number.
    pub(crate) fn place(&self) -> Place
        ensures { result ≡ place_of_lean self.now }
    {
        match self {
            LeanObject::Switch(lean) => Place::Switch(lean.record().id),
            LeanObject::Router(lean) => Place::Router(lean.record().id),
            LeanObject::Group(lean) => Place::Group(lean.record().id),
        }
    }
}

impl Step {
    /// What of the records it touches, if it does.
    pub(crate) fn touched(&self) -> Option<Touch>
        ensures { result ≡ touched_by self.now }
    {
        match self {
            Step::Restore(object) => Some(Touch::Whole(object.place())),
            Step::Swap(lean, number) => Some(Touch::Listed(lean.place(), *number)),
            Step::Remove(place) => Some(Touch::Whole(*place)),
            Step::Next(_) => None,
        }
    }
}
