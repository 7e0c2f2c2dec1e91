use nv_base::ObjId;
use tr_walk::Event;

/// What there is to put for a line (not from OVN).
#[derive(Drop)]
pub enum Answer {
    /// The text that was written. It is a refusal where so said.
    Text { refused: bool },
    /// The listing of the flows of the datapath of this number, or of all, and `ok`.
    Listing(Option<ObjId>),
    /// The lines of these events, and `ok`.
    Trace(Vec<Event>),
}
