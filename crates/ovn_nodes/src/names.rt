use inc_join::Link;
use nv_base::OutOfMemory;
use std::alloc::Global;
use std::cell::Cell;

/// A number names the right entry with that key, and 0 names none. One of its calls may be refused memory.
#[derive(Drop)]
pub(crate) struct Names {
    calls: Cell<u64>,
    /// The number of the call that is refused memory, from 1, or 0.
    refused: u64,
}

impl Names {
    pub(crate) fn new(refused: u64) -> Self {
        Names {
            calls: Cell::new(0),
            refused,
        }
    }
}

impl Link for Names {
    ghost use Rattle.std.specs.Prelude.{◌==◌, Some, None, if◌then◌else◌};

    type LeftKey = u32;

    type Left = u32;

    type RightKey = u32;

    type Right = u32;

    ghost link_of = { λ left. if left == 0 then None else Some left };

    fn link(&self, _alloc: Global, left: &u32) -> Result<Option<u32>, OutOfMemory> {
        let calls = self.calls.get().saturating_add(1);
        self.calls.set(calls);
        if calls == self.refused {
            return Err(OutOfMemory);
        }
        if *left == 0 {
            return Ok(None);
        }
        Ok(Some(*left))
    }
}
