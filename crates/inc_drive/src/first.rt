use crate::Settles;
use inc_first::FirstNode;
use inc_group::Groups;
use inc_table::{NodeState, Owned};
use nv_base::OutOfMemory;

impl<G: Groups> Settles for FirstNode<G>
where
    G::Key: Drop,
    G::Value: Drop,
    G::Group: Drop,
{
    ghost use Rattle.std.specs.Prelude.{◌≡◌};
    ghost use Rattle.inc_first.specs.First.{HasFirsts};

    type Inputs = Owned<G::Key, G::Value>;

    ghost state_of = { λ node. node.state };

    ghost stands = { λ node inputs. (node.inputs ≡ inputs) × HasFirsts G.Group.cmp G.groups_of inputs node.table };

    ghost makes = { λ _. 0 };

    fn state(&self) -> NodeState {
        self.state()
    }

    fn redo(&mut self, inputs: &Owned<G::Key, G::Value>) -> Result<u64, OutOfMemory> {
        self.rebuild(inputs)?;
        Ok(0)
    }
}
