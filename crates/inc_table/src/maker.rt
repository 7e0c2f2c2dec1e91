ghost use Rattle.std.specs.Prelude.{◌≡◌, ℕ, IfOk, OnOk, OnErr};
ghost use Rattle.inc_table.specs.Maker.{one_more};

use nv_base::{Kept, OutOfMemory};
use std::alloc::Global;

/// Makes the outputs of units: what a unit gives depends on its key and its input alone. It counts what it made.
pub trait Maker {
    /// What tells a unit from others.
    type Key: Kept + Ord;
    /// All that the output of a unit depends on, beside its key.
    type Input: Kept;
    /// What a unit gives.
    type Out: Kept;

    /// The output of the unit with this key and this input.
    ghost out_of: { Self.Key → Self.Input → Self.Out };

    /// How many outputs were made. A count that stands at the last value of `u64` stays there.
    ghost made: { Self → ℕ };

    /// Makes the output of a unit. The count rises by one exactly at `Ok`. Where memory runs out the answer is
    /// `OutOfMemory`.
    fn make(
        &mut self,
        alloc: Global,
        key: &Self::Key,
        input: &Self::Input,
    ) -> Result<Self::Out, OutOfMemory>
        ensures out { IfOk result (λ out. out ≡ out_of key.now input.now) }
        ensures counted { OnOk result (made self.new ≡ one_more (made self.old)) }
        ensures uncounted { OnErr result (made self.new ≡ made self.old) };
}
