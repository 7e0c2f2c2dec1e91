ghost use Rattle.std.specs.Prelude.{◌≡◌, Option, IfOk};

use nv_base::{Kept, OutOfMemory};
use std::alloc::Global;

/// What is wanted at keys, each asked for by itself.
pub trait Wanted {
    /// What tells an entry from others.
    type Key: Kept + Ord;
    /// What is wanted.
    type Value: Kept;

    /// The value that is wanted at a key, or none where nothing is.
    ghost wanted_of: { Self → Self.Key → Option Self.Value };

    /// The value that is wanted at a key, or none where nothing is. Where memory runs out the answer is `OutOfMemory`.
    fn wanted(&self, alloc: Global, key: &Self::Key) -> Result<Option<Self::Value>, OutOfMemory>
        ensures { IfOk result (λ value. value ≡ wanted_of self.now key.now) };
}
