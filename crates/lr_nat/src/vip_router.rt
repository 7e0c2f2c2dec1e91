ghost use Rattle.std.specs.Prelude.{◌≡◌, ◌++◌, IfOk, OnOk};
ghost use Rattle.net_rows.specs.Unit.{said_by, unit_of};
ghost use Rattle.lr_rows.specs.Balancers.{balancing_rule, vip_router_rules};

use lr_rows::one_step_rule;
use nb_records::Frontend;
use net_rows::{Rule, Unit, UnitKind, VipInput, balances_to, opens, priority_of_vip};
use nv_base::{ObjId, OutOfMemory};
use sb_model::Stage;
use sb_rows::NewRows;
use std::alloc::Global;

/// A VIP of a load balancer at a router: a new connection to it goes to one of its backends (ovn-northd(8), 'Load balancing DNAT
/// rules'). The key is the load balancer, the VIP and the router; the rows are made for the load balancer.
#[derive(Drop)]
pub struct VipRouter;

impl UnitKind for VipRouter {
    type Key = (ObjId, Frontend, ObjId);

    type Input = VipInput;

    ghost unit_for = { λ key input. unit_of key.2 key.0 };

    ghost rules_of = { vip_router_rules };

    fn unit(&self, key: &(ObjId, Frontend, ObjId), _input: &VipInput) -> Unit {
        Unit::of(key.2, key.0)
    }

    fn put(
        &self,
        alloc: Global,
        rows: &mut NewRows,
        unit: Unit,
        input: &VipInput,
    ) -> Result<(), OutOfMemory> {
        put_vip_router_rules(alloc, rows, unit, input)
    }
}

// A VIP without backends has none.
#[tactic(auto, unfolding(lr_rows::specs::Balancers::vip_router_rules))]
fn put_vip_router_rules(
    alloc: Global,
    rows: &mut NewRows,
    unit: Unit,
    input: &VipInput,
) -> Result<(), OutOfMemory>
    ensures { OnOk result (rows.new ≡ rows.old ++ said_by unit (vip_router_rules input.now)) }
{
    if input.backends.as_slice().is_empty() {
        return Ok(());
    }
    unit.put(rows, balancing_rule(alloc, input)?)
}

fn balancing_rule(alloc: Global, input: &VipInput) -> Result<Rule, OutOfMemory>
    ensures { IfOk result (λ r. r ≡ balancing_rule input.now) }
{
    let step = balances_to(alloc, input.backends.as_slice())?;
    let opens = opens(alloc, input)?;
    let priority = priority_of_vip(input.at.port);
    one_step_rule(alloc, Stage::LrInDnat, priority, opens, step)
}
