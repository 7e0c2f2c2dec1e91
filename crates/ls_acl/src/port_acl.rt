//! The rows that a port which leads to a router has in the stages of ACLs.
ghost use Rattle.std.specs.Prelude.{◌≡◌, ◌++◌, IfOk, OnOk};
ghost use Rattle.net_rows.specs.Acls.{port_acl_rules};
ghost use Rattle.net_rows.specs.Unit.{said_by, unit_of};
ghost use Rattle.ls_acl.specs.inner.Parts.{untracked_rule};

use crate::actions::goes_on;
use net_rows::{PortAclInput, Rule, Unit, UnitKind};
use nv_base::{Field, Kept, Name, ObjId, OutOfMemory};
use sb_model::{Stage, is_port};
use sb_rows::NewRows;
use std::alloc::Global;

/// A switch port that leads to a router, where its switch tracks connections: what comes and goes by it is not tracked (ovn-northd(8),
/// 'Ingress Table: from-lport Pre-ACLs' and 'Egress Table: to-lport Pre-ACLs'). The key is the port.
#[derive(Drop)]
pub struct PortAcl;

impl UnitKind for PortAcl {
    type Key = ObjId;

    type Input = PortAclInput;

    ghost unit_for = { λ port input. unit_of input.dp port };

    ghost rules_of = { port_acl_rules };

    fn unit(&self, key: &ObjId, input: &PortAclInput) -> Unit {
        Unit::of(input.dp, *key)
    }

    fn put(
        &self,
        alloc: Global,
        rows: &mut NewRows,
        unit: Unit,
        input: &PortAclInput,
    ) -> Result<(), OutOfMemory> {
        put_port_acl_rules(alloc, rows, unit, input)
    }
}

#[tactic(auto, unfolding(net_rows::specs::Acls::port_acl_rules))]
fn put_port_acl_rules(
    alloc: Global,
    rows: &mut NewRows,
    unit: Unit,
    input: &PortAclInput,
) -> Result<(), OutOfMemory>
    ensures { OnOk result (rows.new ≡ rows.old ++ said_by unit (port_acl_rules input.now)) }
{
    unit.put(
        rows,
        untracked_rule(alloc, Stage::LsInPreAcl, Field::Inport, &input.name)?,
    )?;
    unit.put(
        rows,
        untracked_rule(alloc, Stage::LsOutPreAcl, Field::Outport, &input.name)?,
    )?;
    Ok(())
}

// What is of the port goes on as it is.
fn untracked_rule(
    alloc: Global,
    stage: Stage,
    port: Field,
    name: &Name,
) -> Result<Rule, OutOfMemory>
    ensures { IfOk result (λ rule. rule ≡ untracked_rule stage port name.now) }
{
    let actions = goes_on(alloc)?;
    Ok(Rule {
        stage,
        priority: 110,
        matching: is_port(port, name.copy(alloc)?),
        actions,
    })
}
