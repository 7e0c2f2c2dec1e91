ghost use Rattle.std.specs.Prelude.{◌≡◌, [], ◌∷◌, ◌++◌, OnOk, OnErr};
ghost use Rattle.net_rows.specs.Unit.{row_of, unit_of, unit_of_datapath};

use act_core::Action;
use expr_core::Typed;
use nv_base::{Items, ObjId, OutOfMemory};
use sb_model::{Row, Stage};
use sb_rows::NewRows;

/// What the rows of a unit have in common.
#[derive(Clone, Copy)]
pub struct Unit {
    /// The number of the datapath.
    pub dp: ObjId,
    /// The number of the object that the rows are made for, or 0.
    pub hint: ObjId,
}

/// What a row of a unit says, beside what all of them have in common.
#[derive(Drop, PartialEq, Eq)]
pub struct Rule {
    pub stage: Stage,
    pub priority: u16,
    pub matching: Typed,
    pub actions: Items<Action>,
}

impl Unit {
    /// The unit of a datapath, whose rows are made for this object.
    pub fn of(dp: ObjId, hint: ObjId) -> Self
        ensures { result ≡ unit_of dp hint }
    {
        Unit { dp, hint }
    }

    /// The unit of a datapath itself.
    pub fn of_datapath(dp: ObjId) -> Self
        ensures { result ≡ unit_of_datapath dp }
    {
        Unit::of(dp, ObjId(0))
    }

    /// Puts a row of the unit after others. After `OutOfMemory` they are as before.
    #[inline]
    pub fn put(self, rows: &mut NewRows, rule: Rule) -> Result<(), OutOfMemory>
        ensures ok { OnOk result (rows.new ≡ rows.old ++ row_of self rule ∷ []) }
        ensures err { OnErr result (rows.new ≡ rows.old) }
    {
        rows.push(Row {
            dp: self.dp,
            stage: rule.stage,
            priority: rule.priority,
            hint: self.hint,
            matching: rule.matching,
            actions: rule.actions,
        })
    }
}
