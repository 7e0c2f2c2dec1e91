//! The numbers by which records differ that list one number more, or one less, than those of their numbers.
ghost use Rattle.std.specs.Prelude.{◌≡◌, ◌-◌, slice_get};
ghost use Rattle.nb_model.specs.Belongs.{is_number};
ghost use Rattle.nv_table.specs.Table.{record_of};
ghost use Rattle.nb_store.specs.Undo.{differing, listed_more, undone};
ghost use Rattle.nb_store.specs.declared.step.Step.TheVariants.{Swap};

use crate::records::Records;
use crate::step::LeanObject;
use nb_records::{Group, Numbers, Router, Switch};
use nv_base::ObjId;
use nv_table::Lean;

impl Records {
    /// The number that a record lists more than the one of its number, or that this one lists more.
    pub(crate) fn differing(&self, lean: &LeanObject) -> Option<ObjId>
        ensures { result ≡ differing lean.now self.now }
    {
        match lean {
            LeanObject::Switch(lean) => self.differing_switch(lean),
            LeanObject::Router(lean) => self.differing_router(lean),
            LeanObject::Group(lean) => self.differing_group(lean),
        }
    }

    /// Puts a record in place of the one of its number, where the two differ by this one number. Where they do not, nothing changes.
    pub(crate) fn swap_by(&mut self, lean: LeanObject, number: ObjId)
        ensures { self.new ≡ undone (Swap lean number) self.old }
    {
        if is_number(self.differing(&lean), number) {
            drop(self.swap(lean));
        } else {
            drop(lean);
        }
    }

    fn differing_switch(&self, lean: &Lean<Switch>) -> Option<ObjId>
        ensures { result ≡ listed_more (λ x. x.lbs) lean.now (record_of (λ x. x.id) lean.now.0.id self.now.switches) }
    {
        let switch = lean.record();
        if lean.is_longer() {
            number_at(switch.lbs.as_slice(), lean.place())
        } else {
            number_at(self.switches.get(switch.id)?.lbs.as_slice(), lean.place())
        }
    }

    fn differing_router(&self, lean: &Lean<Router>) -> Option<ObjId>
        ensures { result ≡ listed_more (λ x. x.lbs) lean.now (record_of (λ x. x.id) lean.now.0.id self.now.routers) }
    {
        let router = lean.record();
        if lean.is_longer() {
            number_at(router.lbs.as_slice(), lean.place())
        } else {
            number_at(self.routers.get(router.id)?.lbs.as_slice(), lean.place())
        }
    }

    fn differing_group(&self, lean: &Lean<Group>) -> Option<ObjId>
        ensures { result ≡ listed_more (λ x. x.ports) lean.now (record_of (λ x. x.id) lean.now.0.id self.now.groups) }
    {
        let group = lean.record();
        if lean.is_longer() {
            port_at(&group.ports, lean.place())
        } else {
            port_at(&self.groups.get(group.id)?.ports, lean.place())
        }
    }
}

// The number whose tag is at a place: the name's comes first.
fn number_at(listed: &[ObjId], place: usize) -> Option<ObjId>
    ensures { result ≡ slice_get listed.now (place - 1) }
{
    listed.get(place.saturating_sub(1)).copied()
}

// The same of the ports of a group.
fn port_at(ports: &Numbers, place: usize) -> Option<ObjId>
    ensures { result ≡ slice_get ports.now (place - 1) }
{
    ports.get(place.saturating_sub(1))
}

// Whether this is the number of an object that was found.
fn is_number(found: Option<ObjId>, number: ObjId) -> bool
    ensures { result ≡ is_number found number }
{
    match found {
        Some(own) => own.0 == number.0,
        None => false,
    }
}
