use crate::doubler::Doubler;
use crate::script::Fault;
use inc_drive::settle;
use inc_table::{Change, Delta, MapNode, NodeState, Owned, Report};
use nv_base::OutOfMemory;
use std::alloc::Global;

/// A node that doubles, with the inputs that it should have.
#[derive(Drop)]
pub(crate) struct Doubled<const FALL: usize> {
    pub(crate) node: MapNode<Doubler, FALL>,
    inputs: Owned<u32, u32>,
}

impl<const FALL: usize> Doubled<FALL> {
    /// One without inputs, whose maker is refused memory at this call, from 1, or at none where it is 0.
    pub(crate) fn new(alloc: Global, refused: u64) -> Self {
        Doubled {
            node: MapNode::new(alloc, Doubler::new(refused)),
            inputs: Owned::new(alloc),
        }
    }

    /// Applies a delta, where the node is fresh and each change changes something.
    pub(crate) fn change(&mut self, delta: Delta<u32, u32>) -> Result<Report<u32, u64>, Fault> {
        match self.node.state() {
            NodeState::Stale => return Err(Fault::Stale),
            NodeState::Fresh => {}
        }
        if !self.node.inputs().alters_each(&delta) {
            return Err(Fault::Unchanged);
        }
        keep(&mut self.inputs, &delta)?;
        Ok(self.node.change(delta)?)
    }

    /// Makes all outputs anew.
    pub(crate) fn rebuild(&mut self) -> Result<Report<u32, u64>, Fault> {
        Ok(self.node.rebuild(&self.inputs)?)
    }

    /// Brings the node to its inputs where it is stale.
    pub(crate) fn settle(&mut self) -> Result<u64, Fault> {
        Ok(settle(&mut self.node, &self.inputs)?)
    }
}

/// Applies a delta to the inputs that a node should have.
pub(crate) fn keep(
    inputs: &mut Owned<u32, u32>,
    delta: &Delta<u32, u32>,
) -> Result<(), OutOfMemory> {
    for entry in delta.as_slice() {
        match &entry.1 {
            Change::Put(value) => inputs.set(&entry.0, *value)?,
            Change::Gone => {
                inputs.remove(&entry.0);
            }
        }
    }
    Ok(())
}
