//! The rows that a switch has in the stages of ACLs.
ghost use Rattle.std.specs.Prelude.{◌≡◌, ◌++◌, IfOk, OnOk};
ghost use Rattle.net_rows.specs.Acls.{is_shut_out, is_reply, tracking_rules, switch_acl_rules};
ghost use Rattle.net_rows.specs.Unit.{said_by, unit_of_datapath};
ghost use Rattle.ls_acl.specs.inner.Parts.{
  default_rule,
  default_rules,
  rule_for_many,
  asking_rule,
  tracking_rule,
  rules_to_track,
  rule_for_shut_out,
  rule_for_replies,
  rules_for_replies,
  keeping_rule,
  rules_of_connections,
};

use crate::actions::{asks_to_track, drops, goes_on, goes_on_after, passes};
use crate::both::put_in_both;
use act_core::{Action, Step};
use expr_core::{Bits, Pred, Typed, TypedAtom};
use net_rows::{Rule, SwitchAclInput, Unit, UnitKind};
use nv_base::{Field, Items, ObjId, OutOfMemory};
use sb_model::{Stage, bit_is_set, both, either, one_step, predicate, takes_each};
use sb_rows::NewRows;
use std::alloc::Global;

/// What a switch has in the stages of ACLs (ovn-northd(8), 'from-lport ACLs' and 'to-lport ACLs'; stages, registers and priorities are
/// not from OVN). The key is the switch.
#[derive(Drop)]
pub struct SwitchAcl;

impl UnitKind for SwitchAcl {
    type Key = ObjId;

    type Input = SwitchAclInput;

    ghost unit_for = { λ switch input. unit_of_datapath switch };

    ghost rules_of = { switch_acl_rules };

    fn unit(&self, key: &ObjId, _input: &SwitchAclInput) -> Unit {
        Unit::of_datapath(*key)
    }

    fn put(
        &self,
        alloc: Global,
        rows: &mut NewRows,
        unit: Unit,
        input: &SwitchAclInput,
    ) -> Result<(), OutOfMemory> {
        put_switch_acl_rules(alloc, rows, unit, *input)
    }
}

fn put_switch_acl_rules(
    alloc: Global,
    rows: &mut NewRows,
    unit: Unit,
    input: SwitchAclInput,
) -> Result<(), OutOfMemory>
    ensures { OnOk result (rows.new ≡ rows.old ++ said_by unit (switch_acl_rules input)) }
{
    put_default_rules(alloc, rows, unit, input.tracks)?;
    if input.tracks {
        put_tracking_rules(alloc, rows, unit, input.balances)?;
    }
    Ok(())
}

// The rows that act where no other does.
fn put_default_rules(
    alloc: Global,
    rows: &mut NewRows,
    unit: Unit,
    tracks: bool,
) -> Result<(), OutOfMemory>
    ensures { OnOk result (rows.new ≡ rows.old ++ said_by unit (default_rules tracks)) }
{
    let pre_acl = default_rule(Stage::LsInPreAcl, goes_on(alloc)?);
    put_in_both(alloc, rows, unit, pre_acl, Stage::LsOutPreAcl)?;
    let pre_stateful = default_rule(Stage::LsInPreStateful, goes_on(alloc)?);
    put_in_both(alloc, rows, unit, pre_stateful, Stage::LsOutPreStateful)?;
    let acl_eval = default_rule(Stage::LsInAclEval, passes(alloc, tracks)?);
    put_in_both(alloc, rows, unit, acl_eval, Stage::LsOutAclEval)?;
    let stateful = default_rule(Stage::LsInStateful, goes_on(alloc)?);
    put_in_both(alloc, rows, unit, stateful, Stage::LsOutStateful)?;
    Ok(())
}

// A rule that takes each packet, after all others of its stage.
fn default_rule(stage: Stage, actions: Items<Action>) -> Rule
    ensures { result ≡ default_rule stage actions }
{
    Rule {
        stage,
        priority: 0,
        matching: takes_each(),
        actions,
    }
}

// The rows of a switch that tracks connections.
fn put_tracking_rules(
    alloc: Global,
    rows: &mut NewRows,
    unit: Unit,
    balances: bool,
) -> Result<(), OutOfMemory>
    ensures { OnOk result (rows.new ≡ rows.old ++ said_by unit (tracking_rules balances)) }
{
    put_rules_to_track(alloc, rows, unit, balances)?;
    put_rules_of_connections(alloc, rows, unit)?;
    Ok(())
}

// The rows by which packets are tracked.
fn put_rules_to_track(
    alloc: Global,
    rows: &mut NewRows,
    unit: Unit,
    balances: bool,
) -> Result<(), OutOfMemory>
    ensures { OnOk result (rows.new ≡ rows.old ++ said_by unit (rules_to_track balances)) }
{
    let for_many = rule_for_many(alloc)?;
    put_in_both(alloc, rows, unit, for_many, Stage::LsOutPreAcl)?;
    let asking = asking_rule(alloc)?;
    put_in_both(alloc, rows, unit, asking, Stage::LsOutPreAcl)?;
    let tracking = tracking_rule(alloc, balances)?;
    put_in_both(alloc, rows, unit, tracking, Stage::LsOutPreStateful)?;
    Ok(())
}

// What is for many is not tracked.
fn rule_for_many(alloc: Global) -> Result<Rule, OutOfMemory>
    ensures { IfOk result (λ rule. rule ≡ rule_for_many) }
{
    let actions = goes_on(alloc)?;
    Ok(Rule {
        stage: Stage::LsInPreAcl,
        priority: 110,
        matching: predicate(Pred::EthMcast),
        actions,
    })
}

// IPv4 is to be tracked.
fn asking_rule(alloc: Global) -> Result<Rule, OutOfMemory>
    ensures { IfOk result (λ rule. rule ≡ asking_rule) }
{
    let actions = goes_on_after(alloc, asks_to_track())?;
    Ok(Rule {
        stage: Stage::LsInPreAcl,
        priority: 100,
        matching: predicate(Pred::Ip4),
        actions,
    })
}

// What is to be tracked is, and it is translated where load balancers are attached.
fn tracking_rule(alloc: Global, balances: bool) -> Result<Rule, OutOfMemory>
    ensures { IfOk result (λ rule. rule ≡ tracking_rule balances) }
{
    let step = if balances { Step::CtLb } else { Step::CtNext };
    let actions = one_step(alloc, step)?;
    Ok(Rule {
        stage: Stage::LsInPreStateful,
        priority: 100,
        matching: bit_is_set(Field::Reg0, 0),
        actions,
    })
}

// The rows that act on what is known of the connection of a packet.
fn put_rules_of_connections(
    alloc: Global,
    rows: &mut NewRows,
    unit: Unit,
) -> Result<(), OutOfMemory>
    ensures { OnOk result (rows.new ≡ rows.old ++ said_by unit rules_of_connections) }
{
    let for_shut_out = rule_for_shut_out(alloc)?;
    put_in_both(alloc, rows, unit, for_shut_out, Stage::LsOutAclEval)?;
    put_rules_for_replies(alloc, rows, unit)?;
    let keeping = keeping_rule(alloc)?;
    put_in_both(alloc, rows, unit, keeping, Stage::LsOutStateful)?;
    Ok(())
}

// Invalid packets, and replies on blocked connections, are dropped.
fn rule_for_shut_out(alloc: Global) -> Result<Rule, OutOfMemory>
    ensures { IfOk result (λ rule. rule ≡ rule_for_shut_out) }
{
    let actions = drops(alloc)?;
    Ok(Rule {
        stage: Stage::LsInAclEval,
        priority: 65532,
        matching: is_shut_out(alloc)?,
        actions,
    })
}

// An invalid packet, or one of a blocked connection that is no new request.
fn is_shut_out(alloc: Global) -> Result<Typed, OutOfMemory>
    ensures { IfOk result (λ t. t ≡ is_shut_out) }
{
    let is_reply = is_reply(alloc)?;
    let is_blocked = Typed::atom(TypedAtom::Bare(Field::CtMarkBlocked, Bits::Whole));
    let is_blocked_reply = both(alloc, is_reply, is_blocked)?;
    either(alloc, predicate(Pred::CtInv), is_blocked_reply)
}

// A reply, or what is related to a connection.
fn is_reply(alloc: Global) -> Result<Typed, OutOfMemory>
    ensures { IfOk result (λ t. t ≡ is_reply) }
{
    either(alloc, predicate(Pred::CtRpl), predicate(Pred::CtRel))
}

// Replies, and what is related to a connection, go on.
fn put_rules_for_replies(alloc: Global, rows: &mut NewRows, unit: Unit) -> Result<(), OutOfMemory>
    ensures { OnOk result (rows.new ≡ rows.old ++ said_by unit rules_for_replies) }
{
    let for_replies = rule_for_replies(alloc)?;
    put_in_both(alloc, rows, unit, for_replies, Stage::LsOutAclEval)?;
    Ok(())
}

// The rule for replies in ingress.
fn rule_for_replies(alloc: Global) -> Result<Rule, OutOfMemory>
    ensures { IfOk result (λ rule. rule ≡ rule_for_replies) }
{
    let actions = goes_on(alloc)?;
    Ok(Rule {
        stage: Stage::LsInAclEval,
        priority: 65531,
        matching: is_reply(alloc)?,
        actions,
    })
}

// A connection that is to be kept is.
fn keeping_rule(alloc: Global) -> Result<Rule, OutOfMemory>
    ensures { IfOk result (λ rule. rule ≡ keeping_rule) }
{
    let actions = goes_on_after(alloc, Step::CtCommit { blocked: false })?;
    Ok(Rule {
        stage: Stage::LsInStateful,
        priority: 100,
        matching: bit_is_set(Field::Reg0, 1),
        actions,
    })
}
