ghost use Rattle.std.specs.Prelude.{◌≡◌, IfOk};
ghost use Rattle.net_meaning.specs.inner.Exact as tells;

use crate::{Answer, Cause, PlainEvent};
use nv_base::{Kept, OutOfMemory};
use std::alloc::Global;

impl Kept for Answer {
    ghost exact = { tells.answer };

    fn copy(&self, _alloc: Global) -> Result<Self, OutOfMemory> {
        Ok(*self)
    }
}

impl Kept for Cause {
    ghost exact = { tells.cause };

    fn copy(&self, _alloc: Global) -> Result<Self, OutOfMemory> {
        Ok(*self)
    }
}

impl Kept for PlainEvent {
    ghost exact = { tells.event };

    fn copy(&self, _alloc: Global) -> Result<Self, OutOfMemory> {
        Ok(*self)
    }
}
