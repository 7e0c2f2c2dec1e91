ghost use Rattle.std.specs.Prelude.{◌≡◌, IfOk};
ghost use Rattle.pkt_core.specs.inner.Exact as tells;

use crate::{Packet, Tuple};
use nv_base::{Kept, OutOfMemory};
use std::alloc::Global;

impl Kept for Packet {
    ghost exact = { tells.packet };

    fn copy(&self, _alloc: Global) -> Result<Self, OutOfMemory> {
        Ok(*self)
    }
}

impl Kept for Tuple {
    ghost exact = { tells.tuple };

    fn copy(&self, _alloc: Global) -> Result<Self, OutOfMemory> {
        Ok(*self)
    }
}
