ghost use Rattle.std.specs.Prelude.{◌≡◌, ◌++◌, OnOk};
ghost use Rattle.net_rows.specs.PortSecurity.{switch_sec_rules};
ghost use Rattle.net_rows.specs.Unit.{unit_of_datapath, said_by};

use crate::one_step::one_step_rule;
use act_core::Step;
use expr_core::Pred;
use net_rows::{Unit, UnitKind};
use nv_base::{Field, ObjId, OutOfMemory};
use sb_model::{Stage, bit, predicate, takes_each};
use sb_rows::NewRows;
use std::alloc::Global;

/// The port security that each switch has (ovn-northd(8), 'Ingress Table 0: Admission Control and Ingress Port Security check' and
/// 'Egress Table: Egress Port Security'). The key is the switch.
#[derive(Drop)]
pub struct SwitchSec;

impl UnitKind for SwitchSec {
    type Key = ObjId;

    type Input = ();

    ghost unit_for = { λ switch input. unit_of_datapath switch };

    ghost rules_of = { λ input. switch_sec_rules };

    fn unit(&self, key: &ObjId, _input: &()) -> Unit {
        Unit::of_datapath(*key)
    }

    fn put(
        &self,
        alloc: Global,
        rows: &mut NewRows,
        unit: Unit,
        _input: &(),
    ) -> Result<(), OutOfMemory> {
        put_switch_rules(alloc, rows, unit)
    }
}

// No sender has a multicast MAC, and what is for many goes out.
fn put_switch_rules(alloc: Global, rows: &mut NewRows, unit: Unit) -> Result<(), OutOfMemory>
    ensures { OnOk result (rows.new ≡ rows.old ++ said_by unit switch_sec_rules) }
{
    let from_many = bit(Field::EthSrc, 40);
    unit.put(
        rows,
        one_step_rule(alloc, Stage::LsInCheckPortSec, 100, from_many, Step::Drop)?,
    )?;
    unit.put(
        rows,
        one_step_rule(alloc, Stage::LsInCheckPortSec, 0, takes_each(), Step::Next)?,
    )?;
    let to_many = predicate(Pred::EthMcast);
    unit.put(
        rows,
        one_step_rule(alloc, Stage::LsOutCheckPortSec, 100, to_many, Step::Output)?,
    )?;
    unit.put(
        rows,
        one_step_rule(
            alloc,
            Stage::LsOutCheckPortSec,
            0,
            takes_each(),
            Step::Output,
        )?,
    )?;
    Ok(())
}
