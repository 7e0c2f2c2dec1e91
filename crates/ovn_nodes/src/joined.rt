use crate::kept::keep;
use crate::names::Names;
use crate::script::Fault;
use inc_drive::settle;
use inc_join::JoinNode;
use inc_table::{Delta, NodeState, Owned};
use std::alloc::Global;

/// What a change of a node that joins answers.
pub(crate) type Told = Delta<u32, (u32, Option<u32>)>;

/// A node that joins, with the inputs that it should have.
#[derive(Drop)]
pub(crate) struct Joined {
    pub(crate) node: JoinNode<Names>,
    inputs: (Owned<u32, u32>, Owned<u32, u32>),
}

impl Joined {
    /// One without inputs, whose link is refused memory at this call, from 1, or at none where it is 0.
    pub(crate) fn new(alloc: Global, refused: u64) -> Self {
        Joined {
            node: JoinNode::new(alloc, Names::new(refused)),
            inputs: (Owned::new(alloc), Owned::new(alloc)),
        }
    }

    /// Applies a delta of left values, where the node is fresh and each change changes something.
    pub(crate) fn change_left(&mut self, delta: Delta<u32, u32>) -> Result<Told, Fault> {
        match self.node.state() {
            NodeState::Stale => return Err(Fault::Stale),
            NodeState::Fresh => {}
        }
        if !self.node.alters_left(&delta) {
            return Err(Fault::Unchanged);
        }
        keep(&mut self.inputs.0, &delta)?;
        Ok(self.node.change_left(delta)?)
    }

    /// Applies a delta of right values, where the node is fresh and each change changes something.
    pub(crate) fn change_right(&mut self, delta: Delta<u32, u32>) -> Result<Told, Fault> {
        match self.node.state() {
            NodeState::Stale => return Err(Fault::Stale),
            NodeState::Fresh => {}
        }
        if !self.node.alters_right(&delta) {
            return Err(Fault::Unchanged);
        }
        keep(&mut self.inputs.1, &delta)?;
        Ok(self.node.change_right(delta)?)
    }

    /// Joins all anew.
    pub(crate) fn rebuild(&mut self) -> Result<(), Fault> {
        Ok(self.node.rebuild(&self.inputs.0, &self.inputs.1)?)
    }

    /// Brings the node to its inputs where it is stale.
    pub(crate) fn settle(&mut self) -> Result<u64, Fault> {
        Ok(settle(&mut self.node, &self.inputs)?)
    }
}
