//! Who watches packets on their way.
use ct_core::Look;
use ct_state::Work;
use nv_base::{ObjId, OutOfMemory};
use pkt_core::Packet;
use sb_model::{Pipeline, Row, Stage};

/// Who watches the packets of a walk: it is told of each pipeline that one begins in and of each row that acts on it, as it happens. A
/// walk is the same whoever watches it, but that it ends where its watcher runs out of memory. No clause says what is told.
pub trait Watch<E> {
    /// A packet begins in a pipeline of a datapath.
    fn begin(
        &mut self,
        env: &E,
        dp: ObjId,
        pipeline: Pipeline,
        packet: &Packet,
    ) -> Result<(), OutOfMemory>;

    /// A row acts on it in a stage: what the packet is after that, what the last look-up in this pipeline told, if there was one,
    /// and the state that it leaves.
    fn act(
        &mut self,
        env: &E,
        stage: Stage,
        row: &Row,
        after: &Packet,
        look: &Option<Look>,
        work: &Work,
    ) -> Result<(), OutOfMemory>;
}

/// Nobody watches.
#[derive(Clone, Copy)]
pub struct Unwatched;

impl<E> Watch<E> for Unwatched {
    fn begin(
        &mut self,
        _env: &E,
        _dp: ObjId,
        _pipeline: Pipeline,
        _packet: &Packet,
    ) -> Result<(), OutOfMemory> {
        Ok(())
    }

    fn act(
        &mut self,
        _env: &E,
        _stage: Stage,
        _row: &Row,
        _after: &Packet,
        _look: &Option<Look>,
        _work: &Work,
    ) -> Result<(), OutOfMemory> {
        Ok(())
    }
}
