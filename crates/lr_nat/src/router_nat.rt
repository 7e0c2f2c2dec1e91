ghost use Rattle.std.specs.Prelude.{◌≡◌, [], ◌∷◌, ◌++◌, OnOk};
ghost use Rattle.sb_model.specs.Make.{takes_each, goes_on};
ghost use Rattle.net_rows.specs.Unit.{rule, said_by, unit_of_datapath};
ghost use Rattle.lr_rows.specs.Nat.{passing_rules, connection_rules, router_nat_rules};

use act_core::Step;
use expr_core::Pred;
use lr_rows::{RouterNatInput, one_step_rule};
use net_rows::{Unit, UnitKind};
use nv_base::{ObjId, OutOfMemory};
use sb_model::{Stage, predicate, takes_each};
use sb_rows::NewRows;
use std::alloc::Global;

/// What each router has in the stages of address translation: what no rule takes goes on, and connections are looked up where
/// destinations are changed (ovn-northd(8), 'UNSNAT', 'DEFRAG', 'DNAT', 'UNDNAT' and 'SNAT'). The key is the router.
#[derive(Drop)]
pub struct RouterNat;

impl UnitKind for RouterNat {
    type Key = ObjId;

    type Input = RouterNatInput;

    ghost unit_for = { λ router input. unit_of_datapath router };

    ghost rules_of = { router_nat_rules };

    fn unit(&self, key: &ObjId, _input: &RouterNatInput) -> Unit {
        Unit::of_datapath(*key)
    }

    fn put(
        &self,
        alloc: Global,
        rows: &mut NewRows,
        unit: Unit,
        input: &RouterNatInput,
    ) -> Result<(), OutOfMemory> {
        put_router_nat_rules(alloc, rows, unit, *input)
    }
}

#[tactic(auto, unfolding(lr_rows::specs::Nat::router_nat_rules))]
fn put_router_nat_rules(
    alloc: Global,
    rows: &mut NewRows,
    unit: Unit,
    input: RouterNatInput,
) -> Result<(), OutOfMemory>
    ensures { OnOk result (rows.new ≡ rows.old ++ said_by unit (router_nat_rules input)) }
{
    put_passing_rules(alloc, rows, unit)?;
    put_connection_rules(alloc, rows, unit, input.dnats)?;
    Ok(())
}

// What no rule takes goes on.
fn put_passing_rules(alloc: Global, rows: &mut NewRows, unit: Unit) -> Result<(), OutOfMemory>
    ensures { OnOk result (rows.new ≡ rows.old ++ said_by unit passing_rules) }
{
    put_passing_rule(alloc, rows, unit, Stage::LrInUnsnat)?;
    put_passing_rule(alloc, rows, unit, Stage::LrInDefrag)?;
    put_passing_rule(alloc, rows, unit, Stage::LrInDnat)?;
    put_passing_rule(alloc, rows, unit, Stage::LrOutUndnat)?;
    put_passing_rule(alloc, rows, unit, Stage::LrOutSnat)?;
    Ok(())
}

fn put_passing_rule(
    alloc: Global,
    rows: &mut NewRows,
    unit: Unit,
    stage: Stage,
) -> Result<(), OutOfMemory>
    ensures { OnOk result (rows.new ≡ rows.old ++ said_by unit (rule stage 0 takes_each goes_on ∷ [])) }
{
    unit.put(
        rows,
        one_step_rule(alloc, stage, 0, takes_each(), Step::Next)?,
    )
}

// Where destinations are changed, connections are looked up on both ways.
fn put_connection_rules(
    alloc: Global,
    rows: &mut NewRows,
    unit: Unit,
    dnats: bool,
) -> Result<(), OutOfMemory>
    ensures { OnOk result (rows.new ≡ rows.old ++ said_by unit (connection_rules dnats)) }
{
    if !dnats {
        return Ok(());
    }
    let coming = predicate(Pred::Ip4);
    unit.put(
        rows,
        one_step_rule(alloc, Stage::LrInDefrag, 100, coming, Step::CtDnat)?,
    )?;
    let leaving = predicate(Pred::Ip4);
    unit.put(
        rows,
        one_step_rule(alloc, Stage::LrOutUndnat, 100, leaving, Step::CtDnat)?,
    )?;
    Ok(())
}
