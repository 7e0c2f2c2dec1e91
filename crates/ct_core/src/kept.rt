ghost use Rattle.std.specs.Prelude.{◌≡◌, IfOk};
ghost use Rattle.ct_core.specs.inner.Exact as tells;

use crate::{Entry, Neighbour, Zone};
use nv_base::{Kept, OutOfMemory};
use std::alloc::Global;

impl Kept for Zone {
    ghost exact = { tells.zone };

    fn copy(&self, _alloc: Global) -> Result<Self, OutOfMemory> {
        Ok(*self)
    }
}

impl Kept for Entry {
    ghost exact = { tells.entry };

    fn copy(&self, _alloc: Global) -> Result<Self, OutOfMemory> {
        Ok(*self)
    }
}

impl Kept for Neighbour {
    ghost exact = { tells.neighbour };

    fn copy(&self, _alloc: Global) -> Result<Self, OutOfMemory> {
        Ok(*self)
    }
}
