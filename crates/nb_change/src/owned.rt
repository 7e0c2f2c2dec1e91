//! Records that belong to another one and are removed, all of them or those of which a test holds.
ghost use Rattle.std.specs.Prelude.{◌≡◌, ◌&&◌, if◌then◌else◌, OnOk};
ghost use Rattle.nb_model.specs.Effect.{without};
ghost use Rattle.nb_model.specs.Network.{same};
ghost use Rattle.nv_table.specs.Table.{NumbersRise};
ghost use Rattle.nb_store.specs.Undo.{back_steps, removed};

use nb_records::{Acl, Binding, Nat, NatKind, Route, RouteBy, Way};
use nb_store::{Place, Records, Work, is_same_way};
use nv_base::{ObjId, OutOfMemory};
use nv_table::Record;

/// A kind of records that belong to another one, and are a list of the network.
pub(crate) trait Owned: Record {
    ghost use Rattle.std.specs.Prelude.{◌≡◌, ◌&&◌, List, find};
    ghost use Rattle.std.specs.Option.{option_copied};
    ghost use Rattle.nv_base.specs.declared.object.ObjId.{ObjId};
    ghost use Rattle.nb_model.specs.Network.{Network, same};
    ghost use Rattle.nv_table.specs.Table.{is_after, without_number};
    ghost use Rattle.nb_store.specs.Undo.{removed};
    ghost use Rattle.nb_change.specs.inner.Kinds.{IsList};

    ghost list: { Network → List Self };

    ghost with_list: { List Self → Network → Network };

    ghost owner_of: { Self → ObjId };

    /// The first record that belongs to this one, above a number where one is given.
    fn first_of(records: &Records, owner: ObjId, after: Option<ObjId>) -> Option<&Self>
        ensures { option_copied result ≡ find (λ r. is_after after (Self.number r) && same owner (owner_of r)) (list records.now) };

    /// Where the record of a number is.
    fn place(number: ObjId) -> Place
        ensures { (net : Network) → removed result net ≡ with_list (without_number Self.number number (list net)) net };

    ghost part: { IsList list with_list };
}

impl Owned for Route {
    ghost use Rattle.std.specs.Prelude.{refl};

    ghost list = { λ net. net.routes };

    ghost with_list = { λ all net. record net { routes = all } };

    ghost owner_of = { λ route. route.router };

    ghost part = { record { read = λ all net. refl; again = λ all before net. refl; same = λ net. refl } };

    fn first_of(records: &Records, owner: ObjId, after: Option<ObjId>) -> Option<&Route> {
        records.route_of(owner, after)
    }

    fn place(number: ObjId) -> Place {
        Place::Route(number)
    }
}

impl Owned for Nat {
    ghost use Rattle.std.specs.Prelude.{refl};

    ghost list = { λ net. net.nats };

    ghost with_list = { λ all net. record net { nats = all } };

    ghost owner_of = { λ nat. nat.router };

    ghost part = { record { read = λ all net. refl; again = λ all before net. refl; same = λ net. refl } };

    fn first_of(records: &Records, owner: ObjId, after: Option<ObjId>) -> Option<&Nat> {
        records.nat_of(owner, after)
    }

    fn place(number: ObjId) -> Place {
        Place::Nat(number)
    }
}

impl Owned for Acl {
    ghost use Rattle.std.specs.Prelude.{refl};

    ghost list = { λ net. net.acls };

    ghost with_list = { λ all net. record net { acls = all } };

    ghost owner_of = { λ acl. acl.owner };

    ghost part = { record { read = λ all net. refl; again = λ all before net. refl; same = λ net. refl } };

    fn first_of(records: &Records, owner: ObjId, after: Option<ObjId>) -> Option<&Acl> {
        records.acl_of(owner, after)
    }

    fn place(number: ObjId) -> Place {
        Place::Acl(number)
    }
}

impl Owned for Binding {
    ghost use Rattle.std.specs.Prelude.{refl};

    ghost list = { λ net. net.bindings };

    ghost with_list = { λ all net. record net { bindings = all } };

    ghost owner_of = { λ binding. binding.port };

    ghost part = { record { read = λ all net. refl; again = λ all before net. refl; same = λ net. refl } };

    fn first_of(records: &Records, owner: ObjId, after: Option<ObjId>) -> Option<&Binding> {
        records.binding_of(owner, after)
    }

    fn place(number: ObjId) -> Place {
        Place::Binding(number)
    }
}

/// A test of the records of a kind.
pub(crate) trait Test<R: Record> {
    ghost use Rattle.std.specs.Prelude.{◌≡◌, Bool};

    ghost holds: { Self → R → Bool };

    /// Whether it holds of a record.
    fn holds(&self, tested: &R) -> bool
        ensures { result ≡ holds self.now tested.now };
}

/// The test that holds of all.
pub(crate) struct Any;

impl<R: Record> Test<R> for Any {
    ghost use Rattle.std.specs.Prelude.{true};

    ghost holds = { λ any r. true };

    fn holds(&self, _tested: &R) -> bool {
        true
    }
}

// An ACL is of this direction.
impl Test<Acl> for Way {
    ghost use Rattle.nb_model.specs.Belongs.{same_way};

    ghost holds = { λ way acl. same_way way acl.way };

    fn holds(&self, acl: &Acl) -> bool {
        is_same_way(*self, acl.way)
    }
}

// A route is of this policy, where one is given.
impl Test<Route> for Option<RouteBy> {
    ghost use Rattle.nb_model.specs.Belongs.{same_policy};
    ghost use Rattle.nb_model.specs.Effect.{is_asked};

    ghost holds = { λ by route. is_asked same_policy by route.by };

    fn holds(&self, route: &Route) -> bool {
        match self {
            Some(RouteBy::Dst) => matches!(route.by, RouteBy::Dst),
            Some(RouteBy::Src) => matches!(route.by, RouteBy::Src),
            None => true,
        }
    }
}

// A NAT rule is of this kind, where one is given.
impl Test<Nat> for Option<NatKind> {
    ghost use Rattle.nb_model.specs.Belongs.{same_nat_kind};
    ghost use Rattle.nb_model.specs.Effect.{is_asked};

    ghost holds = { λ kind nat. is_asked same_nat_kind kind nat.kind };

    fn holds(&self, nat: &Nat) -> bool {
        match self {
            Some(NatKind::Snat) => matches!(nat.kind, NatKind::Snat),
            Some(NatKind::Dnat) => matches!(nat.kind, NatKind::Dnat),
            Some(NatKind::DnatAndSnat) => matches!(nat.kind, NatKind::DnatAndSnat),
            None => true,
        }
    }
}

/// Removes the records that belong to this one and of which a test holds.
pub(crate) fn drop_each<R: Owned, T: Test<R>>(
    work: &mut Work,
    owner: ObjId,
    test: &T,
) -> Result<(), OutOfMemory>
    requires rise { NumbersRise R.number (R.list work.old.records) }
    ensures ok { OnOk result (work.new.records ≡ R.with_list (without (λ r. same owner (R.owner_of r) && T.holds test.now r) (R.list work.old.records)) work.old.records) }
    ensures back { back_steps work.new.steps.items work.new.records ≡ back_steps work.old.steps.items work.old.records }
{
    let mut after = None;
    while let Some(held) = R::first_of(&work.records, owner, after) {
        let number = held.number();
        let goes = test.holds(held);
        remove_if(work, goes, R::place(number))?;
        after = Some(number);
    }
    Ok(())
}

/// Removes the records that belong to this one.
pub(crate) fn drop_all<R: Owned>(work: &mut Work, owner: ObjId) -> Result<(), OutOfMemory>
    requires rise { NumbersRise R.number (R.list work.old.records) }
    ensures ok { OnOk result (work.new.records ≡ R.with_list (without (λ r. same owner (R.owner_of r)) (R.list work.old.records)) work.old.records) }
    ensures back { back_steps work.new.steps.items work.new.records ≡ back_steps work.old.steps.items work.old.records }
{
    drop_each::<R, Any>(work, owner, &Any)
}

/// Removes an object if it is to go.
pub(crate) fn remove_if(work: &mut Work, goes: bool, place: Place) -> Result<(), OutOfMemory>
    ensures ok { OnOk result (work.new.records ≡ (if goes then removed place work.old.records else work.old.records)) }
    ensures back { back_steps work.new.steps.items work.new.records ≡ back_steps work.old.steps.items work.old.records }
{
    if goes { work.remove(place) } else { Ok(()) }
}
