ghost use Rattle.std.specs.Prelude.{◌≡◌, List, IfOk};

use nv_base::{Kept, OutOfMemory};
use std::alloc::Global;

/// Which groups an entry is in: they depend on its key and its value alone.
pub trait Groups {
    /// What tells an entry from others.
    type Key: Kept + Ord;
    /// What is grouped.
    type Value: Kept;
    /// What tells a group from others.
    type Group: Kept + Ord;

    /// The groups that an entry is in. One that is named twice counts once.
    ghost groups_of: { Self.Key → Self.Value → List Self.Group };

    /// The groups that an entry is in. Where memory runs out the answer is `OutOfMemory`.
    fn groups(
        &self,
        alloc: Global,
        key: &Self::Key,
        value: &Self::Value,
    ) -> Result<Vec<Self::Group>, OutOfMemory>
        ensures { IfOk result (λ groups. groups.items ≡ groups_of key.now value.now) };
}
