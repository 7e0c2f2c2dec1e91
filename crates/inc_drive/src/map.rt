use crate::Settles;
use inc_table::{Maker, MapNode, NodeState, Owned};
use nv_base::OutOfMemory;

impl<M: Maker, const FALL: usize> Settles for MapNode<M, FALL>
where
    M::Key: Drop,
    M::Input: Drop,
    M::Out: Drop,
{
    ghost use Rattle.std.specs.Prelude.{◌≡◌};
    ghost use Rattle.inc_table.specs.Node.{outputs_of};

    type Inputs = Owned<M::Key, M::Input>;

    ghost state_of = { λ node. node.state };

    ghost stands = { λ node inputs. (node.inputs ≡ inputs) × (node.table ≡ outputs_of M.out_of inputs) };

    ghost makes = { λ node. M.made node.maker };

    fn state(&self) -> NodeState {
        self.state()
    }

    fn redo(&mut self, inputs: &Owned<M::Key, M::Input>) -> Result<u64, OutOfMemory> {
        Ok(self.rebuild(inputs)?.made)
    }
}
