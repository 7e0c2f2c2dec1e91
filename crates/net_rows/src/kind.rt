//! Kinds of units.
use crate::Unit;
use nv_base::{Kept, OutOfMemory};
use sb_rows::NewRows;
use std::alloc::Global;

/// A kind of units: the unit that a key and an input are of, and what puts its rows among others.
pub trait UnitKind {
    ghost use Rattle.std.specs.Prelude.{◌≡◌, ◌++◌, List, OnOk};
    ghost use Rattle.net_rows.specs.declared.rule.Rule.{Rule};
    ghost use Rattle.net_rows.specs.declared.rule.Unit as units;
    ghost use Rattle.net_rows.specs.Unit.{said_by};

    /// What tells a unit from others of its kind.
    type Key: Kept + Ord;
    /// All that its rows depend on, beside the key.
    type Input: Kept;

    /// The unit of a key and an input.
    ghost unit_for: { Self.Key → Self.Input → units.Unit };

    /// The rules of a unit with this input.
    ghost rules_of: { Self.Input → List Rule };

    /// The unit of a key and an input.
    fn unit(&self, key: &Self::Key, input: &Self::Input) -> Unit
        ensures { result ≡ unit_for key.now input.now };

    /// Puts the rows of a unit after others. Where memory runs out the answer is `OutOfMemory`.
    fn put(
        &self,
        alloc: Global,
        rows: &mut NewRows,
        unit: Unit,
        input: &Self::Input,
    ) -> Result<(), OutOfMemory>
        ensures { OnOk result (rows.new ≡ rows.old ++ said_by unit (rules_of input.now)) };
}
