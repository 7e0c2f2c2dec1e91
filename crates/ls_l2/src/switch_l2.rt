ghost use Rattle.nv_base.specs.Name.{flood_group, unknown_group};
ghost use Rattle.std.specs.Prelude.{◌≡◌, [], ◌∷◌, ◌++◌, IfOk, OnOk};
ghost use Rattle.sb_model.specs.Make.{takes_each, is_predicate, steps, goes_out_by};
ghost use Rattle.net_rows.specs.Lookup.{switch_l2_rules, unknown_rules};
ghost use Rattle.net_rows.specs.Unit.{rule, said_by, unit_of_datapath};

use act_core::Step;
use expr_core::Pred;
use net_rows::{Rule, SwitchL2Input, Unit, UnitKind};
use nv_base::{FLOOD_GROUP, Name, ObjId, OutOfMemory, UNKNOWN_GROUP};
use sb_model::{Stage, goes_out_by, one_step, predicate, takes_each};
use sb_rows::NewRows;
use std::alloc::Global;

/// What each switch has in the stages of ARP replies and of the lookup: what is for many goes out by each port, and what no port has
/// by those for unknown addresses (ovn-northd(8), 'Ingress Table: ARP/ND responder' and 'Ingress Table: Destination Lookup'). The key
/// is the switch.
#[derive(Drop)]
pub struct SwitchL2;

impl UnitKind for SwitchL2 {
    type Key = ObjId;

    type Input = SwitchL2Input;

    ghost unit_for = { λ switch input. unit_of_datapath switch };

    ghost rules_of = { switch_l2_rules };

    fn unit(&self, key: &ObjId, _input: &SwitchL2Input) -> Unit {
        Unit::of_datapath(*key)
    }

    fn put(
        &self,
        alloc: Global,
        rows: &mut NewRows,
        unit: Unit,
        input: &SwitchL2Input,
    ) -> Result<(), OutOfMemory> {
        put_switch_l2_rules(alloc, rows, unit, *input)
    }
}

#[tactic(auto, unfolding(net_rows::specs::Lookup::switch_l2_rules))]
fn put_switch_l2_rules(
    alloc: Global,
    rows: &mut NewRows,
    unit: Unit,
    input: SwitchL2Input,
) -> Result<(), OutOfMemory>
    ensures { OnOk result (rows.new ≡ rows.old ++ said_by unit (switch_l2_rules input)) }
{
    unit.put(rows, last_rule(alloc, Stage::LsInArpRsp, Step::Next)?)?;
    unit.put(rows, flood_rule(alloc)?)?;
    unit.put(rows, last_rule(alloc, Stage::LsInL2Lkup, Step::Next)?)?;
    unit.put(rows, last_rule(alloc, Stage::LsInL2Unknown, Step::Drop)?)?;
    put_unknown_rules(alloc, rows, unit, input.unknown)?;
    Ok(())
}

// What no other rule of a stage takes.
fn last_rule(alloc: Global, stage: Stage, step: Step) -> Result<Rule, OutOfMemory>
    ensures { IfOk result (λ r. r ≡ rule stage 0 takes_each (steps (step ∷ []))) }
{
    let actions = one_step(alloc, step)?;
    Ok(Rule {
        stage,
        priority: 0,
        matching: takes_each(),
        actions,
    })
}

// What is for many goes out by each port.
fn flood_rule(alloc: Global) -> Result<Rule, OutOfMemory>
    ensures { IfOk result (λ r. r ≡ rule Stage.LsInL2Lkup 100 (is_predicate Pred.EthMcast) (goes_out_by flood_group)) }
{
    let actions = goes_out_by(alloc, Name::from_slice(alloc, FLOOD_GROUP)?)?;
    Ok(Rule {
        stage: Stage::LsInL2Lkup,
        priority: 100,
        matching: predicate(Pred::EthMcast),
        actions,
    })
}

// What no port has goes to the ports for unknown addresses, where there are such.
fn put_unknown_rules(
    alloc: Global,
    rows: &mut NewRows,
    unit: Unit,
    unknown: bool,
) -> Result<(), OutOfMemory>
    ensures { OnOk result (rows.new ≡ rows.old ++ said_by unit (unknown_rules unknown)) }
{
    if unknown {
        unit.put(rows, unknown_rule(alloc)?)
    } else {
        Ok(())
    }
}

fn unknown_rule(alloc: Global) -> Result<Rule, OutOfMemory>
    ensures { IfOk result (λ r. r ≡ rule Stage.LsInL2Unknown 50 takes_each (goes_out_by unknown_group)) }
{
    let actions = goes_out_by(alloc, Name::from_slice(alloc, UNKNOWN_GROUP)?)?;
    Ok(Rule {
        stage: Stage::LsInL2Unknown,
        priority: 50,
        matching: takes_each(),
        actions,
    })
}
