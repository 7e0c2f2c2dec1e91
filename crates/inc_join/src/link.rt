ghost use Rattle.std.specs.Prelude.{◌≡◌, Option, IfOk};

use nv_base::{Kept, OutOfMemory};
use std::alloc::Global;

/// What a left value names on the right: it depends on that value alone.
pub trait Link {
    /// What tells a left entry from others.
    type LeftKey: Kept + Ord;
    /// What has a link.
    type Left: Kept;
    /// What a link names.
    type RightKey: Kept + Ord;
    /// What is found there.
    type Right: Kept;

    /// The right key that a left value names, if it names one.
    ghost link_of: { Self.Left → Option Self.RightKey };

    /// The right key that a left value names, if it names one. Where memory runs out the answer is `OutOfMemory`.
    fn link(&self, alloc: Global, left: &Self::Left) -> Result<Option<Self::RightKey>, OutOfMemory>
        ensures { IfOk result (λ key. key ≡ link_of left.now) };
}
