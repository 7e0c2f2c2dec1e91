use crate::hundreds::Hundreds;
use crate::kept::keep;
use crate::script::Fault;
use inc_drive::settle;
use inc_feed::{Keys, Wanted, delta_of};
use inc_first::FirstNode;
use inc_table::{Delta, NodeState, Owned};
use nv_base::OutOfMemory;
use std::alloc::Global;

/// What is wanted: these values, and none at any other key.
#[derive(Drop)]
pub(crate) struct Asked {
    pub(crate) values: Owned<u32, u32>,
}

impl Wanted for Asked {
    ghost use Rattle.nv_map.specs.Map.{value_at};

    type Key = u32;

    type Value = u32;

    ghost wanted_of = { λ asked key. value_at ⟦<u32 as Ord>⟧.cmp key asked.values };

    fn wanted(&self, _alloc: Global, key: &u32) -> Result<Option<u32>, OutOfMemory> {
        match self.values.get(key) {
            Some(value) => Ok(Some(*value)),
            None => Ok(None),
        }
    }
}

/// A node that keeps first members, with the inputs that it should have.
#[derive(Drop)]
pub(crate) struct Led {
    pub(crate) node: FirstNode<Hundreds>,
    inputs: Owned<u32, u32>,
}

impl Led {
    /// One without inputs, whose groups are refused memory at this call, from 1, or at none where it is 0.
    pub(crate) fn new(alloc: Global, refused: u64) -> Self {
        Led {
            node: FirstNode::new(alloc, Hundreds::new(refused)),
            inputs: Owned::new(alloc),
        }
    }

    /// Brings the node, where it is fresh, to what is wanted at these keys.
    pub(crate) fn feed(
        &mut self,
        alloc: Global,
        asked: &Asked,
        keys: &Keys<u32>,
    ) -> Result<Delta<u32, u32>, Fault> {
        match self.node.state() {
            NodeState::Stale => return Err(Fault::Stale),
            NodeState::Fresh => {}
        }
        let delta = delta_of(alloc, asked, keys, self.node.inputs())?;
        keep(&mut self.inputs, &delta)?;
        Ok(self.node.change(delta)?)
    }

    /// Looks all first members up anew.
    pub(crate) fn rebuild(&mut self) -> Result<(), Fault> {
        Ok(self.node.rebuild(&self.inputs)?)
    }

    /// Brings the node to its inputs where it is stale.
    pub(crate) fn settle(&mut self) -> Result<u64, Fault> {
        Ok(settle(&mut self.node, &self.inputs)?)
    }
}
