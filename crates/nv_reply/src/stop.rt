ghost use Rattle.std.specs.Prelude.{◌≡◌};
ghost use Rattle.nv_reply.specs.declared.stop.Stop.TheVariants.{ReadFault, WriteFault, OutOfMemory};

use nv_io::{SinkFailed, SourceFailed};
use std::alloc::AllocError;

/// Why no more lines are run (not from OVN).
#[derive(Drop)]
pub enum Stop {
    /// The source failed.
    ReadFault,
    /// The sink failed.
    WriteFault,
    /// The input is longer than an input may be.
    InputTooLong,
    /// Memory ran out.
    OutOfMemory,
}

impl From<SourceFailed> for Stop {
    ghost from_gives = { λ _ stop. stop ≡ ReadFault };

    fn from(_failed: SourceFailed) -> Stop {
        Stop::ReadFault
    }
}

impl From<SinkFailed> for Stop {
    ghost from_gives = { λ _ stop. stop ≡ WriteFault };

    fn from(_failed: SinkFailed) -> Stop {
        Stop::WriteFault
    }
}

impl From<nv_base::OutOfMemory> for Stop {
    ghost from_gives = { λ _ stop. stop ≡ OutOfMemory };

    fn from(_error: nv_base::OutOfMemory) -> Stop {
        Stop::OutOfMemory
    }
}

impl From<AllocError> for Stop {
    ghost from_gives = { λ _ stop. stop ≡ OutOfMemory };

    fn from(_error: AllocError) -> Stop {
        Stop::OutOfMemory
    }
}
