use nb_store::Touch;
use nv_base::{Items, ObjId};

/// What the edits of a line changed.
#[derive(Drop)]
pub struct Changes {
    /// Whether there may be a change: where not, the network is as before.
    pub any: bool,
    /// The objects that were there before the line, and are no more there after it.
    pub gone: GoneObjects,
    /// The records that may have changed, come or gone, and the numbers that may have come to their lists or gone from them, in order, each
    /// once.
    pub touched: Items<Touch>,
}

/// The numbers of objects that are gone, of those kinds of which packets leave something for later ones.
#[derive(Drop)]
pub struct GoneObjects {
    /// Ports of switches.
    pub ports: Items<ObjId>,
    /// Ports of routers.
    pub router_ports: Items<ObjId>,
    /// Routers.
    pub routers: Items<ObjId>,
}
