use crate::Settles;
use inc_join::{JoinNode, Link};
use inc_table::{NodeState, Owned};
use nv_base::OutOfMemory;

impl<L: Link> Settles for JoinNode<L>
where
    L::LeftKey: Drop,
    L::Left: Drop,
    L::RightKey: Drop,
    L::Right: Drop,
{
    ghost use Rattle.std.specs.Prelude.{◌≡◌};
    ghost use Rattle.inc_join.specs.Join.{joined};

    type Inputs = (Owned<L::LeftKey, L::Left>, Owned<L::RightKey, L::Right>);

    ghost state_of = { λ node. node.state };

    ghost stands = { λ node inputs. (node.left ≡ inputs.0) × (node.right ≡ inputs.1) × (node.table ≡ joined L.RightKey.cmp L.link_of inputs.0 inputs.1) };

    ghost makes = { λ _. 0 };

    fn state(&self) -> NodeState {
        self.state()
    }

    fn redo(
        &mut self,
        inputs: &(Owned<L::LeftKey, L::Left>, Owned<L::RightKey, L::Right>),
    ) -> Result<u64, OutOfMemory> {
        self.rebuild(&inputs.0, &inputs.1)?;
        Ok(0)
    }
}
