use ct_core::Look;
use pkt_core::Packet;

/// A packet within a pipeline, and what the last look-up told of it, if it was looked up there.
#[derive(Clone, Copy)]
pub(crate) struct Moving {
    pub(crate) packet: Packet,
    pub(crate) look: Option<Look>,
}
