ghost use Rattle.std.specs.Prelude.{IfOk, IsTrue};
ghost use Rattle.inc_table.specs.Delta.{IsDifference, alters_each};
ghost use Rattle.nb_model.specs.Network.{Network};
ghost use Rattle.nd_touched.specs.Touched.{AreSameButFor};
ghost use Rattle.nd_touched.specs.Units.{HasUnits};
ghost use Rattle.lr_rows.specs.contracts.inputs.NatRuleInputPartialEq.TheImpl as input;
ghost use Rattle.net_units.specs.Keys.{by_number};
ghost use Rattle.lr_units.specs.Units.{nat_rule_units};
ghost use Rattle.nv_map.specs.Map.{KeysRise};

use inc_feed::{Wanted, delta_of};
use inc_table::{Delta, Owned};
use lr_rows::NatRuleInput;
use nb_store::Records;
use nd_inputs::nat_rule_input;
use nd_touched::Touched;
use nv_base::{ObjId, OutOfMemory};
use std::alloc::Global;

// The units of NAT rules of a network.
#[derive(Drop)]
struct NatRuleUnits<'a> {
    records: &'a Records,
}

impl Wanted for NatRuleUnits<'_> {
    ghost use Rattle.net_units.specs.Keys.{by_number};
    ghost use Rattle.lr_units.specs.Units.{nat_rule_units};
    ghost use Rattle.nv_map.specs.Map.{value_at};

    type Key = ObjId;

    type Value = NatRuleInput;

    ghost wanted_of = { λ units key. value_at by_number key (nat_rule_units units.records.now) };

    fn wanted(&self, _alloc: Global, key: &ObjId) -> Result<Option<NatRuleInput>, OutOfMemory> {
        match self.records.nats().get(*key) {
            Some(nat) => Ok(Some(nat_rule_input(nat))),
            None => Ok(None),
        }
    }
}

/// What changed of the units of NAT rules, where this was touched. Where memory runs out the answer is `OutOfMemory`.
pub fn nat_rule_delta(
    alloc: Global,
    records: &Records,
    touched: &Touched,
    there: &Owned<ObjId, NatRuleInput>,
) -> Result<Delta<ObjId, NatRuleInput>, OutOfMemory>
    ensures tells { IfOk result (λ delta. (old : Network) → AreSameButFor touched.now old records.now → HasUnits by_number (nat_rule_units old) there.now → IsDifference by_number (input.ghosts).eq there.now (nat_rule_units records.now) delta) }
    ensures rise { IfOk result (λ delta. KeysRise by_number delta) }
    ensures alters { IfOk result (λ delta. IsTrue (alters_each by_number (input.ghosts).eq delta there.now)) }
{
    Ok(delta_of(alloc, &NatRuleUnits { records }, &touched.nats, there)?)
}
