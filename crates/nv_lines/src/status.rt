use nv_input::Status;
use nv_reply::Stop;

/// The status of a run that ended so, and of which some line was refused or none.
pub fn status_of(ended: &Result<(), Stop>, some_refused: bool) -> Status {
    match ended {
        Ok(()) if some_refused => Status::SomeRefused,
        Ok(()) => Status::Done,
        Err(Stop::ReadFault) => Status::ReadFault,
        Err(Stop::WriteFault) => Status::WriteFault,
        Err(Stop::InputTooLong) => Status::InputTooLong,
        Err(Stop::OutOfMemory) => Status::OutOfMemory,
    }
}
