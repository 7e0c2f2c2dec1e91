ghost use Rattle.std.specs.Prelude.{◌≡◌};
ghost use Rattle.nv_input.specs.Status.{exit_status};
ghost use Rattle.nv_input.specs.inner.Stops.{status_of};

use nv_reply::Stop;

/// How a run ended.
#[derive(Clone, Copy, PartialEq, Eq)]
pub enum Status {
    /// The input was read to its end, and no line was refused.
    Done,
    /// The input was read to its end, and some line was refused.
    SomeRefused,
    /// The arguments are not accepted.
    Usage,
    /// The input could not be read.
    ReadFault,
    /// The output could not be written.
    WriteFault,
    /// The input has more than 268,435,456 bytes.
    InputTooLong,
    /// Memory ran out.
    OutOfMemory,
}

impl Status {
    /// The exit status of the process: 0 to 6, in the order of the variants (not from OVN).
    pub fn code(&self) -> u8
        ensures { result ≡ exit_status self.now }
    {
        match self {
            Status::Done => 0,
            Status::SomeRefused => 1,
            Status::Usage => 2,
            Status::ReadFault => 3,
            Status::WriteFault => 4,
            Status::InputTooLong => 5,
            Status::OutOfMemory => 6,
        }
    }

    // The status of a run that is stopped.
    pub(crate) fn of(stop: &Stop) -> Status
        ensures { result ≡ status_of stop.now }
    {
        match stop {
            Stop::ReadFault => Status::ReadFault,
            Stop::WriteFault => Status::WriteFault,
            Stop::InputTooLong => Status::InputTooLong,
            Stop::OutOfMemory => Status::OutOfMemory,
        }
    }
}
