//! The rows of an ACL on a switch.
ghost use Rattle.std.specs.Prelude.{◌≡◌, [], ◌∷◌, ◌++◌, IfOk, OnOk};
ghost use Rattle.net_rows.specs.Acls.{
  first_stage_of,
  stage_of,
  refusing_rules,
  tracked_rules,
  untracking_rules,
  acl_rules_at,
  acl_on_rules,
};
ghost use Rattle.net_rows.specs.Unit.{rule, said_by, unit_of};
ghost use Rattle.sb_model.specs.Make.{all_of};
ghost use Rattle.ls_acl.specs.inner.Parts.{blocking_rule, refusing_rule};

use crate::actions::{blocks, ending, goes_on, passes};
use act_core::Action;
use expr_core::{Pred, Typed};
use nb_records::{Verdict, Way};
use net_rows::{AclOnInput, Rule, Unit, UnitKind};
use nv_base::{Items, Kept, ObjId, OutOfMemory};
use sb_model::{Stage, both, predicate};
use sb_rows::NewRows;
use std::alloc::Global;

// The greatest priority of an ACL.
const GREATEST_PRIORITY: u16 = 32_767;

// By so much the priority of an ACL's rows is above its own.
const ABOVE: u16 = 1000;

/// An ACL on a switch to which it applies (ovn-northd(8), 'from-lport ACLs' and 'to-lport ACLs'; stages, registers and priorities are
/// not from OVN). The key is both, the ACL first. An ACL of a priority above 32,767 has no rows.
#[derive(Drop)]
pub struct AclOn;

impl UnitKind for AclOn {
    type Key = (ObjId, ObjId);

    type Input = AclOnInput;

    ghost unit_for = { λ key input. unit_of key.1 key.0 };

    ghost rules_of = { acl_on_rules };

    fn unit(&self, key: &(ObjId, ObjId), _input: &AclOnInput) -> Unit {
        Unit::of(key.1, key.0)
    }

    fn put(
        &self,
        alloc: Global,
        rows: &mut NewRows,
        unit: Unit,
        input: &AclOnInput,
    ) -> Result<(), OutOfMemory> {
        put_acl_on_rules(alloc, rows, unit, input)
    }
}

fn put_acl_on_rules(
    alloc: Global,
    rows: &mut NewRows,
    unit: Unit,
    acl: &AclOnInput,
) -> Result<(), OutOfMemory>
    ensures { OnOk result (rows.new ≡ rows.old ++ said_by unit (acl_on_rules acl.now)) }
{
    if acl.priority <= GREATEST_PRIORITY {
        put_rules_at(alloc, rows, unit, acl.priority + ABOVE, acl)?;
    }
    Ok(())
}

// The rows of the ACL, of this priority.
fn put_rules_at(
    alloc: Global,
    rows: &mut NewRows,
    unit: Unit,
    priority: u16,
    acl: &AclOnInput,
) -> Result<(), OutOfMemory>
    ensures { OnOk result (rows.new ≡ rows.old ++ said_by unit (acl_rules_at priority acl.now)) }
{
    if acl.tracks {
        put_untracking_rule(alloc, rows, unit, priority, acl)?;
        put_tracked_rules(alloc, rows, unit, priority, acl)?;
    } else {
        let actions = ending(alloc, acl.verdict)?;
        unit.put(
            rows,
            rule_of(alloc, acl, stage_of(acl.way), priority, actions)?,
        )?;
    }
    Ok(())
}

// The rule of what the ACL takes.
fn rule_of(
    alloc: Global,
    acl: &AclOnInput,
    stage: Stage,
    priority: u16,
    actions: Items<Action>,
) -> Result<Rule, OutOfMemory>
    ensures { IfOk result (λ made. made ≡ rule stage priority acl.now.matching actions) }
{
    Ok(Rule {
        stage,
        priority,
        matching: acl.matching.copy(alloc)?,
        actions,
    })
}

// The stage in which it is decided which packets of a direction are tracked.
fn first_stage_of(way: Way) -> Stage
    ensures { result ≡ first_stage_of way }
{
    match way {
        Way::From => Stage::LsInPreAcl,
        Way::To => Stage::LsOutPreAcl,
    }
}

// The stage in which ACLs decide on the packets of a direction.
fn stage_of(way: Way) -> Stage
    ensures { result ≡ stage_of way }
{
    match way {
        Way::From => Stage::LsInAclEval,
        Way::To => Stage::LsOutAclEval,
    }
}

// On a switch that tracks: what an `allow-stateless` ACL takes is not tracked.
fn put_untracking_rule(
    alloc: Global,
    rows: &mut NewRows,
    unit: Unit,
    priority: u16,
    acl: &AclOnInput,
) -> Result<(), OutOfMemory>
    ensures { OnOk result (rows.new ≡ rows.old ++ said_by unit (untracking_rules acl.now.way priority acl.now.matching acl.now.verdict)) }
{
    match acl.verdict {
        Verdict::AllowStateless => {
            let stage = first_stage_of(acl.way);
            let untracking = rule_of(alloc, acl, stage, priority, goes_on(alloc)?)?;
            unit.put(rows, untracking)?;
            Ok(())
        }
        Verdict::Allow | Verdict::AllowRelated | Verdict::Drop | Verdict::Reject => Ok(()),
    }
}

// On a switch that tracks: the rows in the stage in which ACLs decide.
fn put_tracked_rules(
    alloc: Global,
    rows: &mut NewRows,
    unit: Unit,
    priority: u16,
    acl: &AclOnInput,
) -> Result<(), OutOfMemory>
    ensures { OnOk result (rows.new ≡ rows.old ++ said_by unit (tracked_rules (stage_of acl.now.way) priority acl.now.matching acl.now.verdict)) }
{
    let actions = match acl.verdict {
        Verdict::Allow | Verdict::AllowRelated => passes(alloc, true)?,
        Verdict::AllowStateless => goes_on(alloc)?,
        Verdict::Drop | Verdict::Reject => {
            return put_refusing_rules(alloc, rows, unit, priority, acl);
        }
    };
    unit.put(
        rows,
        rule_of(alloc, acl, stage_of(acl.way), priority, actions)?,
    )
}

// On a switch that tracks: an ACL that refuses packets blocks the connections of those that are established.
fn put_refusing_rules(
    alloc: Global,
    rows: &mut NewRows,
    unit: Unit,
    priority: u16,
    acl: &AclOnInput,
) -> Result<(), OutOfMemory>
    ensures { OnOk result (rows.new ≡ rows.old ++ said_by unit (refusing_rules (stage_of acl.now.way) priority acl.now.matching acl.now.verdict)) }
{
    unit.put(rows, blocking_rule(alloc, priority, acl)?)?;
    unit.put(rows, refusing_rule(alloc, priority, acl)?)?;
    Ok(())
}

// The connection of an established packet is blocked.
fn blocking_rule(alloc: Global, priority: u16, acl: &AclOnInput) -> Result<Rule, OutOfMemory>
    ensures { IfOk result (λ rule. rule ≡ blocking_rule priority acl.now) }
{
    let actions = blocks(alloc, acl.verdict)?;
    let taken = acl.matching.copy(alloc)?;
    Ok(Rule {
        stage: stage_of(acl.way),
        priority,
        matching: both(alloc, predicate(Pred::CtEst), taken)?,
        actions,
    })
}

// Any other packet meets its end alone.
fn refusing_rule(alloc: Global, priority: u16, acl: &AclOnInput) -> Result<Rule, OutOfMemory>
    ensures { IfOk result (λ rule. rule ≡ refusing_rule priority acl.now) }
{
    let actions = ending(alloc, acl.verdict)?;
    let taken = acl.matching.copy(alloc)?;
    let is_new = Typed::negation(alloc, predicate(Pred::CtEst))?;
    Ok(Rule {
        stage: stage_of(acl.way),
        priority,
        matching: both(alloc, is_new, taken)?,
        actions,
    })
}
