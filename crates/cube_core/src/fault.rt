ghost use Rattle.std.specs.Prelude.{◌≡◌};

use nv_base::OutOfMemory;
use thiserror::Error;

/// Why there is no list of cubes.
#[derive(Clone, Copy, Debug, PartialEq, Eq, Error)]
pub enum CubeFault {
    /// A list would have more than 65,536 cubes.
    #[error("more than 65536 cubes")]
    Limit,
    /// There was no memory for the list.
    #[error("out of memory")]
    Memory,
}

impl From<OutOfMemory> for CubeFault {
    ghost use Rattle.cube_core.specs.declared.fault.CubeFault.TheVariants.{Memory};

    ghost from_gives = { λ _ fault. fault ≡ Memory };

    fn from(_error: OutOfMemory) -> CubeFault {
        CubeFault::Memory
    }
}
