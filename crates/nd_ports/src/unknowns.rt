//! Enabled ports with the address `unknown`, each with its switch.
ghost use Rattle.std.specs.Prelude.{IfOk, IsTrue};
ghost use Rattle.inc_table.specs.Delta.{IsDifference, alters_each};
ghost use Rattle.nb_model.specs.Network.{Network};
ghost use Rattle.nb_model.specs.Sound.{IsSound};
ghost use Rattle.nd_ports.specs.Unknown.{unknown_ports};
ghost use Rattle.nd_touched.specs.Touched.{AreSameButFor};
ghost use Rattle.nd_touched.specs.Units.{HasUnits};
ghost use Rattle.net_units.specs.Keys.{by_number};
ghost use Rattle.nv_base.specs.contracts.object.ObjIdPartialEq.TheImpl as number;
ghost use Rattle.nv_map.specs.Map.{KeysRise};

use inc_feed::{Wanted, delta_of};
use inc_table::{Delta, Owned};
use nb_store::Records;
use nd_inputs::is_for_unknown;
use nd_touched::Touched;
use nv_base::{ObjId, OutOfMemory};
use std::alloc::Global;

// The enabled ports of a network with the address `unknown`.
#[derive(Drop)]
struct UnknownPorts<'a> {
    records: &'a Records,
}

impl Wanted for UnknownPorts<'_> {
    ghost use Rattle.nd_owners.specs.inner.Found.{owner_where};
    ghost use Rattle.nd_ports.specs.Unknown.{is_for_unknown};
    ghost use Rattle.nv_table.specs.Table.{record_of};

    type Key = ObjId;

    type Value = ObjId;

    ghost wanted_of = { λ ports key. owner_where (λ port. port.switch) is_for_unknown (record_of (λ x. x.id) key ports.records.now.ports) };

    fn wanted(&self, _alloc: Global, key: &ObjId) -> Result<Option<ObjId>, OutOfMemory> {
        match self.records.ports().get(*key) {
            Some(port) if is_for_unknown(port) => Ok(Some(port.switch)),
            _ => Ok(None),
        }
    }
}

/// What changed of the enabled ports with the address `unknown`, each with its switch, where this was touched. Where memory runs out
/// the answer is `OutOfMemory`.
pub fn unknown_delta(
    alloc: Global,
    records: &Records,
    touched: &Touched,
    there: &Owned<ObjId, ObjId>,
) -> Result<Delta<ObjId, ObjId>, OutOfMemory>
    requires sound { IsSound records.now }
    ensures tells { IfOk result (λ delta. (old : Network) → IsSound old → AreSameButFor touched.now old records.now → HasUnits by_number (unknown_ports old) there.now → IsDifference by_number (number.ghosts).eq there.now (unknown_ports records.now) delta) }
    ensures rise { IfOk result (λ delta. KeysRise by_number delta) }
    ensures alters { IfOk result (λ delta. IsTrue (alters_each by_number (number.ghosts).eq delta there.now)) }
{
    Ok(delta_of(alloc, &UnknownPorts { records }, &touched.ports, there)?)
}
