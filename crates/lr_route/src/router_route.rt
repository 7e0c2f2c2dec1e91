ghost use Rattle.std.specs.Prelude.{◌≡◌, [], ◌∷◌, ◌++◌, IfOk, OnOk};
ghost use Rattle.sb_model.specs.Make.{takes_each, equals, as_mac, steps};
ghost use Rattle.net_rows.specs.Unit.{rule, said_by, unit_of_datapath};
ghost use Rattle.lr_rows.specs.Routes.{asks_for_mac, router_route_rules};

use act_core::{Action, Step};
use lr_rows::{becomes, one_step_rule, takes_over};
use net_rows::{Rule, Unit, UnitKind};
use nv_base::{Field, Items, Mac, ObjId, OutOfMemory};
use sb_model::{Stage, as_mac, equals, in_decimal, takes_each};
use sb_rows::NewRows;
use std::alloc::Global;

/// What each router has in the stages of routing, resolution and delivery (ovn-northd(8), 'IP Routing', 'ARP/ND Resolution', 'ARP
/// Request' and 'Delivery'). The key is the router.
#[derive(Drop)]
pub struct RouterRoute;

impl UnitKind for RouterRoute {
    type Key = ObjId;

    type Input = ();

    ghost unit_for = { λ router input. unit_of_datapath router };

    ghost rules_of = { λ input. router_route_rules };

    fn unit(&self, key: &ObjId, _input: &()) -> Unit {
        Unit::of_datapath(*key)
    }

    fn put(
        &self,
        alloc: Global,
        rows: &mut NewRows,
        unit: Unit,
        _input: &(),
    ) -> Result<(), OutOfMemory> {
        put_router_route_rules(alloc, rows, unit)
    }
}

// Without a route a packet is dropped, what is not bound is looked up among what was learnt, and who is not known is asked for.
fn put_router_route_rules(alloc: Global, rows: &mut NewRows, unit: Unit) -> Result<(), OutOfMemory>
    ensures { OnOk result (rows.new ≡ rows.old ++ said_by unit router_route_rules) }
{
    unit.put(
        rows,
        one_step_rule(alloc, Stage::LrInIpRouting, 0, takes_each(), Step::Drop)?,
    )?;
    unit.put(rows, learnt_rule(alloc)?)?;
    unit.put(rows, asking_rule(alloc)?)?;
    unit.put(
        rows,
        one_step_rule(alloc, Stage::LrInArpRequest, 0, takes_each(), Step::Output)?,
    )?;
    unit.put(
        rows,
        one_step_rule(alloc, Stage::LrOutDelivery, 0, takes_each(), Step::Drop)?,
    )?;
    Ok(())
}

// What is not bound is looked up among what was learnt.
fn learnt_rule(alloc: Global) -> Result<Rule, OutOfMemory>
    ensures { IfOk result (λ r. r ≡ rule Stage.LrInArpResolve 0 takes_each (steps (Step.GetArp ∷ Step.Next ∷ []))) }
{
    let actions = vec![in alloc; Action::Step(Step::GetArp), Action::Step(Step::Next)]?;
    Ok(Rule {
        stage: Stage::LrInArpResolve,
        priority: 0,
        matching: takes_each(),
        actions: Items::from_items(actions),
    })
}

// Whose MAC is not known is asked for it.
fn asking_rule(alloc: Global) -> Result<Rule, OutOfMemory>
    ensures { IfOk result (λ r. r ≡ rule Stage.LrInArpRequest 100 (equals Field.EthDst (as_mac 0)) (Action.Arp asks_for_mac ∷ [])) }
{
    let asks = asks_for_mac(alloc)?;
    Ok(Rule {
        stage: Stage::LrInArpRequest,
        priority: 100,
        matching: equals(Field::EthDst, as_mac(Mac(0))),
        actions: Items::from_items(vec![in alloc; Action::Arp(asks)]?),
    })
}

fn asks_for_mac(alloc: Global) -> Result<Items<Step>, OutOfMemory>
    ensures { IfOk result (λ steps. steps ≡ asks_for_mac) }
{
    let asks = vec![in alloc;
        becomes(Field::EthDst, as_mac(Mac(0xffff_ffff_ffff))),
        becomes(Field::ArpOp, in_decimal(1)),
        takes_over(Field::ArpSpa, Field::Reg1),
        takes_over(Field::ArpTpa, Field::Reg0),
        Step::Output,
    ]?;
    Ok(Items::from_items(asks))
}
