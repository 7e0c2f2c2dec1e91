ghost use Rattle.std.specs.Prelude.{◌≡◌, ◌++◌, IfOk, OnOk};
ghost use Rattle.net_rows.specs.Unit.{said_by};
ghost use Rattle.ls_acl.specs.inner.Parts.{both};

use net_rows::{Rule, Unit};
use nv_base::{Kept, OutOfMemory};
use sb_model::Stage;
use sb_rows::NewRows;
use std::alloc::Global;

/// Puts the row of a rule of ingress, and that of the same rule in a stage of egress.
pub(crate) fn put_in_both(
    alloc: Global,
    rows: &mut NewRows,
    unit: Unit,
    rule: Rule,
    egress: Stage,
) -> Result<(), OutOfMemory>
    ensures { OnOk result (rows.new ≡ rows.old ++ said_by unit (both rule egress)) }
{
    let in_egress = in_stage(alloc, &rule, egress)?;
    unit.put(rows, rule)?;
    unit.put(rows, in_egress)?;
    Ok(())
}

// The same rule, in another stage.
fn in_stage(alloc: Global, rule: &Rule, other: Stage) -> Result<Rule, OutOfMemory>
    ensures { IfOk result (λ same. same ≡ record rule.now { stage = other }) }
{
    let actions = rule.actions.copy(alloc)?;
    Ok(Rule {
        stage: other,
        priority: rule.priority,
        matching: rule.matching.copy(alloc)?,
        actions,
    })
}
