//! The units of the lookup of switches.
ghost use Rattle.std.specs.Prelude.{◌≡◌, List, IfOk, IsTrue};
ghost use Rattle.inc_table.specs.Delta.{IsDifference, alters_each};
ghost use Rattle.nb_model.specs.Network.{Network};
ghost use Rattle.nb_model.specs.Sound.{IsSound};
ghost use Rattle.nd_owners.specs.Owners.{HasFirstOfEach};
ghost use Rattle.nd_ports.specs.Unknown.{unknown_ports};
ghost use Rattle.nd_touched.specs.Touched.{AreSameButFor};
ghost use Rattle.nd_touched.specs.Units.{HasUnits};
ghost use Rattle.net_rows.specs.contracts.inputs.SwitchL2InputPartialEq.TheImpl as input;
ghost use Rattle.net_units.specs.Keys.{by_number};
ghost use Rattle.net_units.specs.Units.{switch_l2_units};
ghost use Rattle.nv_base.specs.contracts.object.ObjIdPartialEq.TheImpl as number;
ghost use Rattle.nv_base.specs.declared.object.ObjId.{ObjId};
ghost use Rattle.nv_map.specs.Map.{KeysRise};

use inc_feed::{Wanted, delta_of};
use inc_table::{Delta, Owned};
use nb_store::Records;
use nd_touched::{Touched, and_changed};
use net_rows::SwitchL2Input;
use nv_base::{ObjId, OutOfMemory};
use std::alloc::Global;

// The units of the lookup of the switches of a network, of which these are the first ports for unknown destinations.
#[derive(Drop)]
struct SwitchL2Units<'a> {
    records: &'a Records,
    unknown: &'a Owned<ObjId, ObjId>,
}

impl Wanted for SwitchL2Units<'_> {
    ghost use Rattle.nd_ports.specs.inner.Found.{input_where};
    ghost use Rattle.net_units.specs.Keys.{by_number};
    ghost use Rattle.nv_map.specs.Map.{value_at};
    ghost use Rattle.nv_table.specs.Table.{record_of};

    type Key = ObjId;

    type Value = SwitchL2Input;

    ghost wanted_of = { λ units key. input_where (value_at by_number key units.unknown.now) (record_of (λ x. x.id) key units.records.now.switches) };

    fn wanted(&self, _alloc: Global, key: &ObjId) -> Result<Option<SwitchL2Input>, OutOfMemory> {
        match self.records.switches().get(*key) {
            Some(_) => Ok(Some(SwitchL2Input {
                unknown: self.unknown.get(key).is_some(),
            })),
            None => Ok(None),
        }
    }
}

/// What changed of the units of the lookup of switches, where this was touched, and where this changed of which port for unknown
/// destinations is the first of each switch. Where memory runs out the answer is `OutOfMemory`.
pub fn switch_l2_delta(
    alloc: Global,
    records: &Records,
    touched: &Touched,
    unknown: &Owned<ObjId, ObjId>,
    changed: &Delta<ObjId, ObjId>,
    there: &Owned<ObjId, SwitchL2Input>,
) -> Result<Delta<ObjId, SwitchL2Input>, OutOfMemory>
    requires sound { IsSound records.now }
    ensures tells { IfOk result (λ delta. (old : Network) (before after was : List (ObjId × ObjId)) → IsSound old → AreSameButFor touched.now old records.now → HasUnits by_number (switch_l2_units old) there.now
        → HasFirstOfEach (unknown_ports old) before was → HasFirstOfEach (unknown_ports records.now) after unknown.now → IsDifference by_number (number.ghosts).eq was unknown.now changed.now → IsDifference by_number (input.ghosts).eq there.now (switch_l2_units records.now) delta) }
    ensures rise { IfOk result (λ delta. KeysRise by_number delta) }
    ensures alters { IfOk result (λ delta. IsTrue (alters_each by_number (input.ghosts).eq delta there.now)) }
{
    let keys = and_changed(alloc, &touched.switches, changed)?;
    Ok(delta_of(alloc, &SwitchL2Units { records, unknown }, &keys, there)?)
}
