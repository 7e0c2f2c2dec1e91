ghost use Rattle.std.specs.Prelude.{◌≡◌, ◌++◌, OnOk};
ghost use Rattle.net_rows.specs.Unit.{said_by};

use net_rows::UnitKind;
use nv_base::OutOfMemory;
use sb_rows::NewRows;
use std::alloc::Global;

/// The rows of a unit come after the others.
pub(crate) fn put_unit<U: UnitKind>(
    alloc: Global,
    rows: &mut NewRows,
    kind: &U,
    key: &U::Key,
    input: &U::Input,
) -> Result<(), OutOfMemory>
    ensures { OnOk result (rows.new ≡ rows.old ++ said_by (U.unit_for key.now input.now) (U.rules_of input.now)) }
{
    let unit = kind.unit(key, input);
    kind.put(alloc, rows, unit, input)
}
