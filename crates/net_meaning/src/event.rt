use crate::Cause;
use nv_base::ObjId;
use pkt_core::Packet;

/// What becomes of a packet.
#[derive(Clone, Copy, PartialEq, Eq)]
pub enum PlainEvent {
    /// It goes out by the port of this number.
    Output(ObjId, Packet),
    /// It is dropped, on the datapath of this number.
    Drop(ObjId, Cause),
    /// It is rejected, and what answers it begins at the port of this number.
    Reject(ObjId),
    /// It would take one hop too many, at the port of this number.
    HopLimit(ObjId),
}
