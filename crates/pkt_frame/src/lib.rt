//! Packets as frames: the bytes in which they are on the wire.
#![tactic(auto)]

mod bytes;
mod headers;
mod laws;
mod put;
mod read;
mod sum;

pub use laws::written_frames_are_read;
pub use put::put_frame;
pub use read::read_frame;
