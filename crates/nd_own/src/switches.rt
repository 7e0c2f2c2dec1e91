ghost use Rattle.std.specs.Prelude.{IfOk, IsTrue};
ghost use Rattle.inc_table.specs.Delta.{IsDifference, alters_each};
ghost use Rattle.net_units.specs.Units.{switch_units};
ghost use Rattle.nb_model.specs.Network.{Network};
ghost use Rattle.nd_touched.specs.Touched.{AreSameButFor};
ghost use Rattle.nd_touched.specs.Units.{HasUnits};
ghost use Rattle.net_units.specs.Counts.{same_none};
ghost use Rattle.net_units.specs.Keys.{by_number};
ghost use Rattle.nv_map.specs.Map.{KeysRise};

use inc_feed::{Wanted, delta_of};
use inc_table::{Delta, Owned};
use nb_store::Records;
use nd_touched::Touched;
use nv_base::{ObjId, OutOfMemory};
use std::alloc::Global;

// The units of the switches of a network.
#[derive(Drop)]
struct SwitchUnits<'a> {
    records: &'a Records,
}

impl Wanted for SwitchUnits<'_> {
    ghost use Rattle.net_units.specs.Units.{switch_units};
    ghost use Rattle.net_units.specs.Keys.{by_number};
    ghost use Rattle.nv_map.specs.Map.{value_at};

    type Key = ObjId;

    type Value = ();

    ghost wanted_of = { λ units key. value_at by_number key (switch_units units.records.now) };

    fn wanted(&self, _alloc: Global, key: &ObjId) -> Result<Option<()>, OutOfMemory> {
        match self.records.switches().get(*key) {
            Some(_) => Ok(Some(())),
            None => Ok(None),
        }
    }
}

/// What changed of the units of switches that depend on no more than that the switch is there, where this was touched. Where memory runs
/// out the answer is `OutOfMemory`.
pub fn switch_delta(
    alloc: Global,
    records: &Records,
    touched: &Touched,
    there: &Owned<ObjId, ()>,
) -> Result<Delta<ObjId, ()>, OutOfMemory>
    ensures tells { IfOk result (λ delta. (old : Network) → AreSameButFor touched.now old records.now → HasUnits by_number (switch_units old) there.now → IsDifference by_number same_none there.now (switch_units records.now) delta) }
    ensures rise { IfOk result (λ delta. KeysRise by_number delta) }
    ensures alters { IfOk result (λ delta. IsTrue (alters_each by_number same_none delta there.now)) }
{
    Ok(delta_of(alloc, &SwitchUnits { records }, &touched.switches, there)?)
}
