ghost use Rattle.std.specs.Prelude.{◌≡◌, ◌+◌, [], ◌∷◌, ◌++◌, IfOk, OnOk};
ghost use Rattle.expr_core.specs.Formula.Formula.{Not};
ghost use Rattle.sb_model.specs.Make.{is_predicate, equals, as_ip4, all_of, steps};
ghost use Rattle.net_rows.specs.Unit.{rule, said_by, unit_of};
ghost use Rattle.lr_rows.specs.Make.{is_within, arp_rule_for};
ghost use Rattle.lr_rows.specs.Nat.{source_rules, destination_rules, translating_rules, nat_rules};

use act_core::Step;
use expr_core::{Pred, Typed};
use lr_rows::{NatRuleInput, arp_rule_for, is_within, one_step_rule};
use nb_records::NatKind;
use net_rows::{Rule, Unit, UnitKind};
use nv_base::{Field, Ip4, ObjId, OutOfMemory};
use sb_model::{Stage, as_ip4, both, equals, predicate};
use sb_rows::NewRows;
use std::alloc::Global;

/// A NAT rule: who asks for its external address is answered, and addresses are changed by its type (ovn-northd(8), 'UNSNAT', 'DNAT' and
/// 'SNAT'). The key is the rule.
#[derive(Drop)]
pub struct NatRule;

impl UnitKind for NatRule {
    type Key = ObjId;

    type Input = NatRuleInput;

    ghost unit_for = { λ nat input. unit_of input.dp nat };

    ghost rules_of = { nat_rules };

    fn unit(&self, key: &ObjId, input: &NatRuleInput) -> Unit {
        Unit::of(input.dp, *key)
    }

    fn put(
        &self,
        alloc: Global,
        rows: &mut NewRows,
        unit: Unit,
        input: &NatRuleInput,
    ) -> Result<(), OutOfMemory> {
        put_nat_rules(alloc, rows, unit, input)
    }
}

#[tactic(auto, unfolding(lr_rows::specs::Nat::nat_rules))]
fn put_nat_rules(
    alloc: Global,
    rows: &mut NewRows,
    unit: Unit,
    input: &NatRuleInput,
) -> Result<(), OutOfMemory>
    ensures { OnOk result (rows.new ≡ rows.old ++ said_by unit (nat_rules input.now)) }
{
    put_arp_rule(alloc, rows, unit, input.external)?;
    put_translating_rules(alloc, rows, unit, input)?;
    Ok(())
}

// Who asks for the external address is answered.
fn put_arp_rule(
    alloc: Global,
    rows: &mut NewRows,
    unit: Unit,
    external: Ip4,
) -> Result<(), OutOfMemory>
    ensures { OnOk result (rows.new ≡ rows.old ++ said_by unit (arp_rule_for external ∷ [])) }
{
    unit.put(rows, arp_rule_for(alloc, external)?)
}

// By the type of the rule.
fn put_translating_rules(
    alloc: Global,
    rows: &mut NewRows,
    unit: Unit,
    input: &NatRuleInput,
) -> Result<(), OutOfMemory>
    ensures { OnOk result (rows.new ≡ rows.old ++ said_by unit (translating_rules input.now.kind input.now)) }
{
    match input.kind {
        NatKind::Snat => put_source_rules(alloc, rows, unit, input),
        NatKind::Dnat => put_destination_rules(alloc, rows, unit, input),
        NatKind::DnatAndSnat => put_both(alloc, rows, unit, input),
    }
}

fn put_both(
    alloc: Global,
    rows: &mut NewRows,
    unit: Unit,
    input: &NatRuleInput,
) -> Result<(), OutOfMemory>
    ensures { OnOk result (rows.new ≡ rows.old ++ said_by unit (source_rules input.now ++ destination_rules input.now)) }
{
    put_source_rules(alloc, rows, unit, input)?;
    put_destination_rules(alloc, rows, unit, input)?;
    Ok(())
}

// The source of what leaves becomes the external address, and back.
fn put_source_rules(
    alloc: Global,
    rows: &mut NewRows,
    unit: Unit,
    input: &NatRuleInput,
) -> Result<(), OutOfMemory>
    ensures { OnOk result (rows.new ≡ rows.old ++ said_by unit (source_rules input.now)) }
{
    unit.put(rows, undoing_rule(alloc, input.external)?)?;
    unit.put(rows, source_rule(alloc, input)?)?;
    Ok(())
}

// What comes for the external address is looked up among the connections of the rule.
fn undoing_rule(alloc: Global, external: Ip4) -> Result<Rule, OutOfMemory>
    ensures { IfOk result (λ r. r ≡ rule Stage.LrInUnsnat 90 (equals Field.Ip4Dst (as_ip4 external.0)) (steps (Step.CtSnat ∷ []))) }
{
    let to_external = equals(Field::Ip4Dst, as_ip4(external));
    one_step_rule(alloc, Stage::LrInUnsnat, 90, to_external, Step::CtSnat)
}

// What leaves from the logical prefix, and is no reply.
fn source_rule(alloc: Global, input: &NatRuleInput) -> Result<Rule, OutOfMemory>
    ensures { IfOk result (λ r. r ≡ rule Stage.LrOutSnat (input.now.logical.len + 1)
        (all_of (Not (is_predicate Pred.CtRpl) ∷ is_within Field.Ip4Src input.now.logical ∷ [])) (steps (Step.CtSnatTo input.now.external ∷ []))) }
{
    let is_no_reply = Typed::negation(alloc, predicate(Pred::CtRpl))?;
    let leaves = both(alloc, is_no_reply, is_within(Field::Ip4Src, input.logical))?;
    let priority = u16::from(input.logical.len) + 1;
    one_step_rule(
        alloc,
        Stage::LrOutSnat,
        priority,
        leaves,
        Step::CtSnatTo(input.external),
    )
}

// The destination of a new connection to the external address becomes the logical one.
fn put_destination_rules(
    alloc: Global,
    rows: &mut NewRows,
    unit: Unit,
    input: &NatRuleInput,
) -> Result<(), OutOfMemory>
    ensures { OnOk result (rows.new ≡ rows.old ++ said_by unit (destination_rules input.now)) }
{
    let to_external = equals(Field::Ip4Dst, as_ip4(input.external));
    let opens = both(alloc, predicate(Pred::CtNew), to_external)?;
    let becomes_logical = Step::CtDnatTo(input.logical.base);
    unit.put(
        rows,
        one_step_rule(alloc, Stage::LrInDnat, 100, opens, becomes_logical)?,
    )
}
