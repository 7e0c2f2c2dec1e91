use crate::hundreds::Hundreds;
use crate::kept::keep;
use crate::script::Fault;
use inc_drive::settle;
use inc_group::{GroupNode, Members};
use inc_table::{Delta, NodeState, Owned};
use std::alloc::Global;

/// What a change of a node that groups answers.
pub(crate) type Regrouped = Delta<u32, Members<u32, u32>>;

/// A node that groups, with the inputs that it should have.
#[derive(Drop)]
pub(crate) struct Grouped {
    pub(crate) node: GroupNode<Hundreds>,
    inputs: Owned<u32, u32>,
}

impl Grouped {
    /// One without inputs, whose groups are refused memory at this call, from 1, or at none where it is 0.
    pub(crate) fn new(alloc: Global, refused: u64) -> Self {
        Grouped {
            node: GroupNode::new(alloc, Hundreds::new(refused)),
            inputs: Owned::new(alloc),
        }
    }

    /// Applies a delta, where the node is fresh and each change changes something.
    pub(crate) fn change(&mut self, delta: Delta<u32, u32>) -> Result<Regrouped, Fault> {
        match self.node.state() {
            NodeState::Stale => return Err(Fault::Stale),
            NodeState::Fresh => {}
        }
        if !self.node.inputs().alters_each(&delta) {
            return Err(Fault::Unchanged);
        }
        keep(&mut self.inputs, &delta)?;
        Ok(self.node.change(delta)?)
    }

    /// Groups all anew.
    pub(crate) fn rebuild(&mut self) -> Result<(), Fault> {
        Ok(self.node.rebuild(&self.inputs)?)
    }

    /// Brings the node to its inputs where it is stale.
    pub(crate) fn settle(&mut self) -> Result<u64, Fault> {
        Ok(settle(&mut self.node, &self.inputs)?)
    }
}
