ghost use Rattle.std.specs.Prelude.{◌≡◌, ◌++◌, OnOk};
ghost use Rattle.net_rows.specs.LoadBalancers.{switch_lb_rules};
ghost use Rattle.net_rows.specs.Unit.{said_by, unit_of_datapath};

use act_core::Step;
use net_rows::{Rule, Unit, UnitKind};
use nv_base::{ObjId, OutOfMemory};
use sb_model::{Stage, one_step, takes_each};
use sb_rows::NewRows;
use std::alloc::Global;

/// The load balancing that each switch has: what no virtual address takes goes on (ovn-northd(8), 'Ingress Table: LB'). The key is the
/// switch.
#[derive(Drop)]
pub struct SwitchLb;

impl UnitKind for SwitchLb {
    type Key = ObjId;

    type Input = ();

    ghost unit_for = { λ switch input. unit_of_datapath switch };

    ghost rules_of = { λ input. switch_lb_rules };

    fn unit(&self, key: &ObjId, _input: &()) -> Unit {
        Unit::of_datapath(*key)
    }

    fn put(
        &self,
        alloc: Global,
        rows: &mut NewRows,
        unit: Unit,
        _input: &(),
    ) -> Result<(), OutOfMemory> {
        put_switch_lb_rules(alloc, rows, unit)
    }
}

fn put_switch_lb_rules(alloc: Global, rows: &mut NewRows, unit: Unit) -> Result<(), OutOfMemory>
    ensures { OnOk result (rows.new ≡ rows.old ++ said_by unit switch_lb_rules) }
{
    let rule = Rule {
        stage: Stage::LsInLb,
        priority: 0,
        matching: takes_each(),
        actions: one_step(alloc, Step::Next)?,
    };
    unit.put(rows, rule)
}
