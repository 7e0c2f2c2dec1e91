ghost use Rattle.std.specs.Prelude.{◌≡◌, ℕ, OnOk, OnErr, IfOk, Ok};
ghost use Rattle.inc_table.specs.declared.node.NodeState.{NodeState};
ghost use Rattle.inc_table.specs.declared.node.NodeState.TheVariants.{Fresh, Stale};
ghost use Rattle.inc_table.specs.Maker.{more_made};

use inc_table::NodeState;
use nv_base::OutOfMemory;

/// A node that can be brought to its inputs again.
pub trait Settles {
    /// All inputs of the node.
    type Inputs;

    /// Whether the table is to be relied on.
    ghost state_of: { Self → NodeState };

    /// The table is the definition's for these inputs.
    ghost stands: { Self → Self.Inputs → Type 0 };

    /// How many outputs were made. A count that stands at the last value of `u64` stays there.
    ghost makes: { Self → ℕ };

    /// Whether the table is to be relied on.
    fn state(&self) -> NodeState
        ensures { result ≡ state_of self.now };

    /// Brings the node to these inputs, whatever its state, and answers how many outputs were made. Where memory runs out the answer is
    /// `OutOfMemory`, and the node is stale.
    fn redo(&mut self, inputs: &Self::Inputs) -> Result<u64, OutOfMemory>
        ensures fresh { OnOk result (state_of self.new ≡ Fresh) }
        ensures stands { OnOk result (stands self.new inputs.now) }
        ensures counted { IfOk result (λ made. makes self.new ≡ more_made made (makes self.old)) }
        ensures stale { OnErr result (state_of self.new ≡ Stale) };
}

/// Brings a stale node to these inputs, and answers how many outputs were made. A fresh node stays as it is, and then no memory is taken.
/// Where memory runs out the answer is `OutOfMemory`, and the node is stale.
pub fn settle<N: Settles>(node: &mut N, inputs: &N::Inputs) -> Result<u64, OutOfMemory>
    ensures fresh { OnOk result (N.state_of node.new ≡ Fresh) }
    ensures stays { N.state_of node.old ≡ Fresh → node.new ≡ node.old }
    ensures none { N.state_of node.old ≡ Fresh → result ≡ Ok 0 }
    ensures stands { N.state_of node.old ≡ Stale → OnOk result (N.stands node.new inputs.now) }
    ensures counted { IfOk result (λ made. N.makes node.new ≡ more_made made (N.makes node.old)) }
    ensures stale { OnErr result (N.state_of node.new ≡ Stale) }
{
    match node.state() {
        NodeState::Fresh => Ok(0),
        NodeState::Stale => node.redo(inputs),
    }
}
