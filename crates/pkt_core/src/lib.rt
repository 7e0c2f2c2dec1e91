//! Packets.
#![tactic(auto)]

mod kept;
mod packet;
mod parts;
mod replies;
mod text;
mod tuple;

pub use packet::Packet;
pub use replies::IcmpReason;
pub use text::put_packet;
pub use tuple::Tuple;
