ghost use Rattle.std.specs.Prelude.{◌≡◌, IfOk};
ghost use Rattle.tr_stage.specs.inner.Exact as tells;

use crate::{Hit, Outcome};
use nv_base::{Kept, OutOfMemory};
use std::alloc::Global;

impl Kept for Hit {
    ghost exact = { tells.hit };

    fn copy(&self, _alloc: Global) -> Result<Self, OutOfMemory> {
        Ok(*self)
    }
}

impl Kept for Outcome {
    ghost exact = { tells.outcome };

    fn copy(&self, _alloc: Global) -> Result<Self, OutOfMemory> {
        Ok(*self)
    }
}
