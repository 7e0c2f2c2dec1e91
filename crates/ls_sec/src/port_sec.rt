ghost use Rattle.std.specs.Prelude.{◌≡◌, ◌++◌, OnOk};
ghost use Rattle.std.specs.List.{flat_map};
ghost use Rattle.net_rows.specs.PortSecurity.{port_sec_rules, disabled_rules, guarded_rules, guard_rules};
ghost use Rattle.net_rows.specs.Unit.{unit_of, said_by};

use crate::guard::put_guard_rules;
use crate::one_step::one_step_rule;
use act_core::Step;
use nb_records::Guard;
use net_rows::{PortSecInput, Unit, UnitKind};
use nv_base::{Field, Kept, Name, ObjId, OutOfMemory};
use sb_model::{Stage, is_port};
use sb_rows::NewRows;
use std::alloc::Global;

/// The port security of a switch port (ovn-northd(8), 'Ingress Table 0: Admission Control and Ingress Port Security check' and 'Egress
/// Table: Egress Port Security'). The key is the port.
#[derive(Drop)]
pub struct PortSec;

impl UnitKind for PortSec {
    type Key = ObjId;

    type Input = PortSecInput;

    ghost unit_for = { λ port input. unit_of input.dp port };

    ghost rules_of = { port_sec_rules };

    fn unit(&self, key: &ObjId, input: &PortSecInput) -> Unit {
        Unit::of(input.dp, *key)
    }

    fn put(
        &self,
        alloc: Global,
        rows: &mut NewRows,
        unit: Unit,
        input: &PortSecInput,
    ) -> Result<(), OutOfMemory> {
        put_port_rules(alloc, rows, unit, input)
    }
}

fn put_port_rules(
    alloc: Global,
    rows: &mut NewRows,
    unit: Unit,
    input: &PortSecInput,
) -> Result<(), OutOfMemory>
    ensures { OnOk result (rows.new ≡ rows.old ++ said_by unit (port_sec_rules input.now)) }
{
    put_disabled_rules(alloc, rows, unit, input.enabled, &input.name)?;
    put_guarded_rules(alloc, rows, unit, &input.name, input.security.as_slice())?;
    Ok(())
}

// A disabled port lets nothing in.
fn put_disabled_rules(
    alloc: Global,
    rows: &mut NewRows,
    unit: Unit,
    enabled: bool,
    name: &Name,
) -> Result<(), OutOfMemory>
    ensures { OnOk result (rows.new ≡ rows.old ++ said_by unit (disabled_rules enabled name.now)) }
{
    if enabled {
        return Ok(());
    }
    let from_port = is_port(Field::Inport, name.copy(alloc)?);
    unit.put(
        rows,
        one_step_rule(alloc, Stage::LsInCheckPortSec, 100, from_port, Step::Drop)?,
    )?;
    Ok(())
}

// A port with guards lets nothing else in or out.
fn put_guarded_rules(
    alloc: Global,
    rows: &mut NewRows,
    unit: Unit,
    name: &Name,
    guards: &[Guard],
) -> Result<(), OutOfMemory>
    ensures { OnOk result (rows.new ≡ rows.old ++ said_by unit (guarded_rules name.now guards.now)) }
{
    if guards.is_empty() {
        return Ok(());
    }
    let from_port = is_port(Field::Inport, name.copy(alloc)?);
    unit.put(
        rows,
        one_step_rule(alloc, Stage::LsInCheckPortSec, 50, from_port, Step::Drop)?,
    )?;
    let to_port = is_port(Field::Outport, name.copy(alloc)?);
    unit.put(
        rows,
        one_step_rule(alloc, Stage::LsOutCheckPortSec, 50, to_port, Step::Drop)?,
    )?;
    put_rules_of_guards(alloc, rows, unit, name, guards)?;
    Ok(())
}

fn put_rules_of_guards(
    alloc: Global,
    rows: &mut NewRows,
    unit: Unit,
    name: &Name,
    guards: &[Guard],
) -> Result<(), OutOfMemory>
    ensures { OnOk result (rows.new ≡ rows.old ++ said_by unit (flat_map (guard_rules name.now) guards.now)) }
{
    for guard in guards {
        put_guard_rules(alloc, rows, unit, name, guard)?;
    }
    Ok(())
}
