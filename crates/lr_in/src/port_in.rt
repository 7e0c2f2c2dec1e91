ghost use Rattle.std.specs.Prelude.{◌≡◌, [], ◌∷◌, ◌++◌, slice_get, IfOk, OnOk};
ghost use Rattle.sb_model.specs.Make.{is_port, is_predicate, equals, in_decimal, as_mac, is_one_of, all_of, one_of, steps};
ghost use Rattle.net_rows.specs.Unit.{rule, said_by, unit_of};
ghost use Rattle.lr_rows.specs.Make.{becomes};
ghost use Rattle.lr_rows.specs.Input.{admitting_rules, answers_expired, expiring_rules, port_in_rules_from, by_first, port_in_rules};

use crate::addresses::put_address_rules;
use crate::answers::answers_expired;
use crate::free::put_free_rules;
use act_core::{Action, Step};
use expr_core::{Item, Pred, Typed};
use lr_rows::{PortInInput, becomes};
use net_rows::{Rule, Unit, UnitKind};
use nv_base::{Field, Ip4, Items, Kept, Name, ObjId, OutOfMemory, Prefix};
use sb_model::{Stage, as_mac, both, either, equals, in_decimal, is_one_of, is_port, predicate};
use sb_rows::NewRows;
use std::alloc::Global;

/// What comes in by a router port: what it admits, whom it learns, and what it answers (ovn-northd(8), 'Ingress Table 0: L2 Admission
/// Control', 'Neighbor learning' and 'IP Input'). The key is the port.
#[derive(Drop)]
pub struct PortIn;

impl UnitKind for PortIn {
    type Key = ObjId;

    type Input = PortInInput;

    ghost unit_for = { λ port input. unit_of input.dp port };

    ghost rules_of = { port_in_rules };

    fn unit(&self, key: &ObjId, input: &PortInInput) -> Unit {
        Unit::of(input.dp, *key)
    }

    fn put(
        &self,
        alloc: Global,
        rows: &mut NewRows,
        unit: Unit,
        input: &PortInInput,
    ) -> Result<(), OutOfMemory> {
        put_port_in_rules(alloc, rows, unit, input)
    }
}

#[tactic(auto, unfolding(lr_rows::specs::Input::port_in_rules))]
fn put_port_in_rules(
    alloc: Global,
    rows: &mut NewRows,
    unit: Unit,
    input: &PortInInput,
) -> Result<(), OutOfMemory>
    ensures { OnOk result (rows.new ≡ rows.old ++ said_by unit (port_in_rules input.now)) }
{
    put_rules_by_first(alloc, rows, unit, input, first_of(input))
}

// The first network of a port, where it has one.
fn first_of(input: &PortInInput) -> Option<Prefix>
    ensures { result ≡ slice_get input.now.nets 0 }
{
    match input.nets.as_slice().first() {
        None => None,
        Some(first) => Some(*first),
    }
}

// A port without networks has no rows.
fn put_rules_by_first(
    alloc: Global,
    rows: &mut NewRows,
    unit: Unit,
    input: &PortInInput,
    first: Option<Prefix>,
) -> Result<(), OutOfMemory>
    ensures { OnOk result (rows.new ≡ rows.old ++ said_by unit (by_first (port_in_rules_from input.now) first)) }
{
    match first {
        None => Ok(()),
        Some(first) => put_rules_from(alloc, rows, unit, input, first),
    }
}

// The rows of a port whose first network is this.
fn put_rules_from(
    alloc: Global,
    rows: &mut NewRows,
    unit: Unit,
    input: &PortInInput,
    first: Prefix,
) -> Result<(), OutOfMemory>
    ensures { OnOk result (rows.new ≡ rows.old ++ said_by unit (port_in_rules_from input.now first)) }
{
    put_admitting_rules(alloc, rows, unit, input)?;
    put_address_rules(alloc, rows, unit, input)?;
    put_free_rules(alloc, rows, unit, input.free.as_slice())?;
    put_expiring_rules(alloc, rows, unit, &input.name, first.base)?;
    Ok(())
}

// An enabled port admits what is for its MAC or for many.
fn put_admitting_rules(
    alloc: Global,
    rows: &mut NewRows,
    unit: Unit,
    input: &PortInInput,
) -> Result<(), OutOfMemory>
    ensures { OnOk result (rows.new ≡ rows.old ++ said_by unit (admitting_rules input.now)) }
{
    if !input.enabled {
        return Ok(());
    }
    unit.put(rows, admitting_rule(alloc, input)?)?;
    Ok(())
}

fn admitting_rule(alloc: Global, input: &PortInInput) -> Result<Rule, OutOfMemory>
    ensures { IfOk result (λ r. r ≡ rule Stage.LrInAdmission 50
        (all_of (is_port Field.Inport input.now.name ∷ one_of (equals Field.EthDst (as_mac input.now.mac) ∷ is_predicate Pred.EthMcast ∷ []) ∷ []))
        (steps (becomes Field.Reg6 (as_mac input.now.mac) ∷ Step.Next ∷ []))) }
{
    let actions = admits(alloc, input)?;
    Ok(Rule {
        stage: Stage::LrInAdmission,
        priority: 50,
        matching: is_admitted(alloc, input)?,
        actions,
    })
}

fn is_admitted(alloc: Global, input: &PortInInput) -> Result<Typed, OutOfMemory>
    ensures { IfOk result (λ t. t ≡ all_of
        (is_port Field.Inport input.now.name ∷ one_of (equals Field.EthDst (as_mac input.now.mac) ∷ is_predicate Pred.EthMcast ∷ []) ∷ [])) }
{
    let for_port = equals(Field::EthDst, as_mac(input.mac));
    let for_it = either(alloc, for_port, predicate(Pred::EthMcast))?;
    let by_port = is_port(Field::Inport, input.name.copy(alloc)?);
    both(alloc, by_port, for_it)
}

fn admits(alloc: Global, input: &PortInInput) -> Result<Items<Action>, OutOfMemory>
    ensures { IfOk result (λ actions. actions ≡ steps (becomes Field.Reg6 (as_mac input.now.mac) ∷ Step.Next ∷ [])) }
{
    let known = becomes(Field::Reg6, as_mac(input.mac));
    Ok(Items::from_items(vec![in alloc; Action::Step(known), Action::Step(Step::Next)]?))
}

// A packet that came in by the port and has no hop left is answered from its first address.
fn put_expiring_rules(
    alloc: Global,
    rows: &mut NewRows,
    unit: Unit,
    name: &Name,
    first: Ip4,
) -> Result<(), OutOfMemory>
    ensures { OnOk result (rows.new ≡ rows.old ++ said_by unit (expiring_rules name.now first)) }
{
    let actions = answers_in_place(alloc, first)?;
    let rule = Rule {
        stage: Stage::LrInIpInput,
        priority: 40,
        matching: is_expiring(alloc, name)?,
        actions,
    };
    unit.put(rows, rule)
}

fn answers_in_place(alloc: Global, first: Ip4) -> Result<Items<Action>, OutOfMemory>
    ensures { IfOk result (λ actions. actions ≡ Action.Icmp4 (answers_expired first) ∷ []) }
{
    let block = answers_expired(alloc, first)?;
    Ok(Items::from_items(vec![in alloc; Action::Icmp4(block)]?))
}

fn is_expiring(alloc: Global, name: &Name) -> Result<Typed, OutOfMemory>
    ensures { IfOk result (λ t. t ≡ all_of (is_port Field.Inport name.now ∷ is_one_of Field.IpTtl (Item.One (in_decimal 0) ∷ Item.One (in_decimal 1) ∷ []) ∷ [])) }
{
    let last = vec![in alloc; Item::One(in_decimal(0)), Item::One(in_decimal(1))]?;
    let has_no_hop = is_one_of(Field::IpTtl, Items::from_items(last));
    let by_port = is_port(Field::Inport, name.copy(alloc)?);
    both(alloc, by_port, has_no_hop)
}
