//! The units of the stages in which routers translate addresses.
ghost use Rattle.std.specs.Prelude.{◌≡◌, List, IfOk, IsTrue};
ghost use Rattle.inc_table.specs.Delta.{IsDifference, alters_each};
ghost use Rattle.lr_rows.specs.contracts.inputs.RouterNatInputPartialEq.TheImpl as input;
ghost use Rattle.lr_units.specs.Units.{router_nat_units};
ghost use Rattle.nb_model.specs.Network.{Network};
ghost use Rattle.nb_model.specs.Sound.{IsSound};
ghost use Rattle.nd_nats.specs.Dnats.{dnat_rules};
ghost use Rattle.nd_owners.specs.Owners.{HasFirstOfEach};
ghost use Rattle.nd_touched.specs.Touched.{AreSameButFor};
ghost use Rattle.nd_touched.specs.Units.{HasUnits};
ghost use Rattle.net_units.specs.Keys.{by_number};
ghost use Rattle.nv_base.specs.contracts.object.ObjIdPartialEq.TheImpl as number;
ghost use Rattle.nv_base.specs.declared.object.ObjId.{ObjId};
ghost use Rattle.nv_map.specs.Map.{KeysRise};

use inc_feed::{Wanted, delta_of};
use inc_table::{Delta, Owned};
use lr_rows::RouterNatInput;
use nb_store::Records;
use nd_touched::{Touched, and_changed, and_owners};
use nv_base::{ObjId, OutOfMemory};
use std::alloc::Global;

// The units of translation of the routers of a network, of which these are the first rules that change destinations.
#[derive(Drop)]
struct RouterNatUnits<'a> {
    records: &'a Records,
    dnats: &'a Owned<ObjId, ObjId>,
}

impl Wanted for RouterNatUnits<'_> {
    ghost use Rattle.nd_nats.specs.inner.Found.{input_where};
    ghost use Rattle.net_units.specs.Keys.{by_number};
    ghost use Rattle.nv_map.specs.Map.{value_at};
    ghost use Rattle.nv_table.specs.Table.{record_of};

    type Key = ObjId;

    type Value = RouterNatInput;

    ghost wanted_of = { λ units key. input_where (value_at by_number key units.dnats.now) (record_of (λ x. x.id) key units.records.now.routers) };

    fn wanted(&self, _alloc: Global, key: &ObjId) -> Result<Option<RouterNatInput>, OutOfMemory> {
        match self.records.routers().get(*key) {
            Some(router) => Ok(Some(RouterNatInput {
                dnats: self.dnats.get(key).is_some() || !router.lbs.as_slice().is_empty(),
            })),
            None => Ok(None),
        }
    }
}

/// What changed of the units of translation of routers, where this was touched, and where this changed of which rule that changes
/// destinations is the first of each router. Where memory runs out the answer is `OutOfMemory`.
pub fn router_nat_delta(
    alloc: Global,
    records: &Records,
    touched: &Touched,
    dnats: &Owned<ObjId, ObjId>,
    changed: &Delta<ObjId, ObjId>,
    there: &Owned<ObjId, RouterNatInput>,
) -> Result<Delta<ObjId, RouterNatInput>, OutOfMemory>
    requires sound { IsSound records.now }
    ensures tells { IfOk result (λ delta. (old : Network) (before after was : List (ObjId × ObjId)) → IsSound old → AreSameButFor touched.now old records.now → HasUnits by_number (router_nat_units old) there.now
        → HasFirstOfEach (dnat_rules old) before was → HasFirstOfEach (dnat_rules records.now) after dnats.now → IsDifference by_number (number.ghosts).eq was dnats.now changed.now → IsDifference by_number (input.ghosts).eq there.now (router_nat_units records.now) delta) }
    ensures rise { IfOk result (λ delta. KeysRise by_number delta) }
    ensures alters { IfOk result (λ delta. IsTrue (alters_each by_number (input.ghosts).eq delta there.now)) }
{
    let listed = and_owners(alloc, &touched.routers, &touched.on_routers)?;
    let keys = and_changed(alloc, &listed, changed)?;
    Ok(delta_of(alloc, &RouterNatUnits { records, dnats }, &keys, there)?)
}
