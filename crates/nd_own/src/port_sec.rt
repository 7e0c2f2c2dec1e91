ghost use Rattle.std.specs.Prelude.{IfOk, IsTrue};
ghost use Rattle.inc_table.specs.Delta.{IsDifference, alters_each};
ghost use Rattle.nb_model.specs.Network.{Network};
ghost use Rattle.nd_touched.specs.Touched.{AreSameButFor};
ghost use Rattle.nd_touched.specs.Units.{HasUnits};
ghost use Rattle.net_rows.specs.contracts.inputs.PortSecInputPartialEq.TheImpl as input;
ghost use Rattle.net_units.specs.Keys.{by_number};
ghost use Rattle.net_units.specs.Units.{port_sec_units};
ghost use Rattle.nv_map.specs.Map.{KeysRise};

use inc_feed::{Wanted, delta_of};
use inc_table::{Delta, Owned};
use nb_store::Records;
use nd_inputs::port_sec_input;
use nd_touched::Touched;
use net_rows::PortSecInput;
use nv_base::{ObjId, OutOfMemory};
use std::alloc::Global;

// The units of port security of a network.
#[derive(Drop)]
struct PortSecUnits<'a> {
    records: &'a Records,
}

impl Wanted for PortSecUnits<'_> {
    ghost use Rattle.net_units.specs.Keys.{by_number};
    ghost use Rattle.net_units.specs.Units.{port_sec_units};
    ghost use Rattle.nv_map.specs.Map.{value_at};

    type Key = ObjId;

    type Value = PortSecInput;

    ghost wanted_of = { λ units key. value_at by_number key (port_sec_units units.records.now) };

    fn wanted(&self, alloc: Global, key: &ObjId) -> Result<Option<PortSecInput>, OutOfMemory> {
        match self.records.ports().get(*key) {
            Some(port) => Ok(Some(port_sec_input(alloc, port)?)),
            None => Ok(None),
        }
    }
}

/// What changed of the units of port security of ports, where this was touched. Where memory runs out the answer is `OutOfMemory`.
pub fn port_sec_delta(
    alloc: Global,
    records: &Records,
    touched: &Touched,
    there: &Owned<ObjId, PortSecInput>,
) -> Result<Delta<ObjId, PortSecInput>, OutOfMemory>
    ensures tells { IfOk result (λ delta. (old : Network) → AreSameButFor touched.now old records.now → HasUnits by_number (port_sec_units old) there.now → IsDifference by_number (input.ghosts).eq there.now (port_sec_units records.now) delta) }
    ensures rise { IfOk result (λ delta. KeysRise by_number delta) }
    ensures alters { IfOk result (λ delta. IsTrue (alters_each by_number (input.ghosts).eq delta there.now)) }
{
    Ok(delta_of(alloc, &PortSecUnits { records }, &touched.ports, there)?)
}
