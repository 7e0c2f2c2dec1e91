use net_meaning::{Answer, Cause};
use nv_base::ObjId;
use pkt_core::Packet;
use sb_model::Stage;

/// That a row acted on a packet: the table of the row, its priority and its hint.
#[derive(Clone, Copy, PartialEq, Eq)]
pub struct Hit {
    /// The datapath's number.
    pub dp: ObjId,
    pub stage: Stage,
    pub priority: u16,
    /// The number of the object that the row was made for, or 0.
    pub hint: ObjId,
}

/// What becomes of a packet at the end of a pipeline.
#[derive(Clone, Copy, PartialEq, Eq)]
pub enum Outcome {
    /// It leaves ingress for a table of egress, the one of this number.
    Leave(Packet, u8),
    /// It goes out by its `outport`.
    Deliver(Packet),
    /// A packet was made in its place, which goes on at a table of egress, the one of this number.
    Made(Packet, u8, Answer),
    Drop(Cause),
}
