ghost use Rattle.std.specs.Prelude.{◌≡◌, IfOk};
ghost use Rattle.sb_model.specs.inner.Exact as tells;

use crate::{DatapathKind, Pipeline, Row, Stage};
use nv_base::{Kept, OutOfMemory};
use std::alloc::Global;

impl Kept for DatapathKind {
    ghost exact = { tells.kind };

    fn copy(&self, _alloc: Global) -> Result<Self, OutOfMemory> {
        Ok(*self)
    }
}

impl Kept for Pipeline {
    ghost exact = { tells.pipeline };

    fn copy(&self, _alloc: Global) -> Result<Self, OutOfMemory> {
        Ok(*self)
    }
}

impl Kept for Stage {
    ghost exact = { tells.stage };

    fn copy(&self, _alloc: Global) -> Result<Self, OutOfMemory> {
        Ok(*self)
    }
}

impl Kept for Row {
    ghost exact = { tells.row };

    fn copy(&self, alloc: Global) -> Result<Self, OutOfMemory> {
        Ok(Row {
            dp: self.dp,
            stage: self.stage,
            priority: self.priority,
            hint: self.hint,
            actions: self.actions.copy(alloc)?,
            matching: self.matching.copy(alloc)?,
        })
    }
}
