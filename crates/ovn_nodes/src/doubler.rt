use inc_table::Maker;
use nv_base::OutOfMemory;
use std::alloc::Global;

/// Doubles numbers. One of its calls may be refused memory.
#[derive(Drop)]
pub(crate) struct Doubler {
    made: u64,
    calls: u64,
    /// The number of the call that is refused memory, from 1, or 0.
    refused: u64,
}

impl Doubler {
    pub(crate) fn new(refused: u64) -> Self {
        Doubler {
            made: 0,
            calls: 0,
            refused,
        }
    }
}

impl Maker for Doubler {
    ghost use Rattle.std.specs.Prelude.{◌*◌};

    type Key = u32;

    type Input = u32;

    type Out = u64;

    ghost out_of = { λ key input. 2 * input };

    ghost made = { λ maker. maker.made };

    fn make(&mut self, _alloc: Global, _key: &u32, input: &u32) -> Result<u64, OutOfMemory> {
        self.calls = self.calls.saturating_add(1);
        if self.calls == self.refused {
            return Err(OutOfMemory);
        }
        self.made = self.made.saturating_add(1);
        Ok(2 * u64::from(*input))
    }
}
