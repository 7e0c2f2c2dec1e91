use crate::Parcel;
use net_meaning::Cause;
use nv_base::ObjId;
use tr_stage::Hit;

/// What is told of a packet's walk. A hit takes no more than 40 bytes of memory: a packet that is output is kept apart.
#[derive(Drop)]
pub enum Event {
    /// A row acted on it.
    Hit(Hit),
    /// It goes out by the port of this number.
    Output(ObjId, Parcel),
    /// It is dropped, on the datapath of this number.
    Drop(ObjId, Cause),
    /// It is rejected, and what answers it begins at the port of this number.
    Reject(ObjId),
    /// It would take one hop too many, at the port of this number.
    HopLimit(ObjId),
}
