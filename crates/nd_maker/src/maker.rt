ghost use Rattle.std.specs.Prelude.{◌≡◌, IfOk};
ghost use Rattle.net_rows.specs.Unit.{unit_rows};

use inc_table::Maker;
use net_rows::UnitKind;
use nv_base::OutOfMemory;
use sb_rows::{NewRows, RowList};
use std::alloc::Global;
use std::marker::Model;

/// Makes the rows of the units of a kind. A clause sees how many outputs it made.
#[derive(Drop)]
pub struct UnitMaker<U: UnitKind> {
    kind: U,
    made: u64,
}

impl<U: UnitKind> Model for UnitMaker<U> {
    ghost use Rattle.std.specs.Prelude.{ℕ};

    ghost Value = { ℕ };

    ghost view = { λ maker. maker.made };
}

impl<U: UnitKind> UnitMaker<U> {
    /// It has made nothing.
    pub fn new(kind: U) -> Self
        ensures { result ≡ 0 }
    {
        UnitMaker { kind, made: 0 }
    }
}

impl<U: UnitKind> Maker for UnitMaker<U> {
    type Key = U::Key;

    type Input = U::Input;

    type Out = RowList;

    ghost out_of = { λ key input. unit_rows (U.unit_for key input) (U.rules_of input) };

    ghost made = { λ made. made };

    fn make(
        &mut self,
        alloc: Global,
        key: &U::Key,
        input: &U::Input,
    ) -> Result<RowList, OutOfMemory> {
        let rows = rows_of(alloc, &self.kind, key, input)?;
        self.made = self.made.saturating_add(1);
        Ok(rows)
    }
}

// The rows of a unit, in row order.
#[tactic(auto, unfolding(net_rows::specs::Unit::unit_rows))]
fn rows_of<U: UnitKind>(
    alloc: Global,
    kind: &U,
    key: &U::Key,
    input: &U::Input,
) -> Result<RowList, OutOfMemory>
    ensures { IfOk result (λ rows. rows ≡ unit_rows (U.unit_for key.now input.now) (U.rules_of input.now)) }
{
    let unit = kind.unit(key, input);
    let mut rows = NewRows::new(alloc);
    kind.put(alloc, &mut rows, unit, input)?;
    rows.into_list()
}
