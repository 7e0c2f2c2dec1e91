ghost use Rattle.std.specs.Prelude.{◌≡◌, ◌∷◌, [], ◌++◌, IfOk, OnOk};
ghost use Rattle.net_rows.specs.LoadBalancers.{balances_to, keeps_no_more, vip_switch_rule, vip_switch_rules};
ghost use Rattle.net_rows.specs.Unit.{said_by, unit_of};
ghost use Rattle.sb_model.specs.Make.{steps};

use act_core::{Action, Step};
use expr_core::Bits;
use nb_records::{Backend, Frontend};
use net_rows::{Rule, Unit, UnitKind, VipInput, balances_to, opens, priority_of_vip};
use nv_base::{Field, Items, ObjId, OutOfMemory};
use sb_model::{Stage, in_decimal};
use sb_rows::NewRows;
use std::alloc::Global;

/// A VIP of a load balancer on a switch: a new connection to it goes to one of its backends (ovn-northd(8), 'Ingress Table: LB'). The
/// key is the load balancer, the VIP and the switch; the rows are made for the load balancer.
#[derive(Drop)]
pub struct VipSwitch;

impl UnitKind for VipSwitch {
    type Key = (ObjId, Frontend, ObjId);

    type Input = VipInput;

    ghost unit_for = { λ key input. unit_of key.2 key.0 };

    ghost rules_of = { vip_switch_rules };

    fn unit(&self, key: &(ObjId, Frontend, ObjId), _input: &VipInput) -> Unit {
        Unit::of(key.2, key.0)
    }

    fn put(
        &self,
        alloc: Global,
        rows: &mut NewRows,
        unit: Unit,
        input: &VipInput,
    ) -> Result<(), OutOfMemory> {
        put_vip_switch_rules(alloc, rows, unit, input)
    }
}

// A VIP without backends has none.
#[tactic(auto, unfolding(net_rows::specs::LoadBalancers::vip_switch_rules))]
fn put_vip_switch_rules(
    alloc: Global,
    rows: &mut NewRows,
    unit: Unit,
    input: &VipInput,
) -> Result<(), OutOfMemory>
    ensures { OnOk result (rows.new ≡ rows.old ++ said_by unit (vip_switch_rules input.now)) }
{
    if input.backends.as_slice().is_empty() {
        return Ok(());
    }
    unit.put(rows, vip_switch_rule(alloc, input)?)
}

fn vip_switch_rule(alloc: Global, input: &VipInput) -> Result<Rule, OutOfMemory>
    ensures { IfOk result (λ r. r ≡ vip_switch_rule input.now) }
{
    let actions = balancing(alloc, input.backends.as_slice())?;
    Ok(Rule {
        stage: Stage::LsInLb,
        priority: priority_of_vip(input.at.port),
        matching: opens(alloc, input)?,
        actions,
    })
}

// The connection is not to be kept as it is, and the packet goes to one of the backends.
fn balancing(alloc: Global, backends: &[Backend]) -> Result<Items<Action>, OutOfMemory>
    ensures { IfOk result (λ actions. actions ≡ steps (keeps_no_more ∷ balances_to backends.now ∷ [])) }
{
    let balances = balances_to(alloc, backends)?;
    let mut actions = Items::with_capacity(alloc, 2)?;
    actions.push(Action::Step(keeps_no_more()))?;
    actions.push(Action::Step(balances))?;
    Ok(actions)
}

fn keeps_no_more() -> Step
    ensures { result ≡ keeps_no_more }
{
    Step::Set(Field::Reg0, Bits::Bit(1), in_decimal(0))
}
