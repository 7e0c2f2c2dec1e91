ghost use Rattle.std.specs.Prelude.{◌≡◌, nat_lt, length, [], OnOk, OnErr, IfOk, IsTrue, true};

use crate::remake::{apply_and_make, remake};
use crate::{Delta, Maker, Owned};
use nv_base::OutOfMemory;
use std::alloc::Global;
use std::marker::Model;

/// Whether the table of a node is to be relied on.
#[derive(Clone, Copy, Debug, PartialEq, Eq)]
pub enum NodeState {
    /// The table is that of the inputs.
    Fresh,
    /// Memory ran out in a change: the table may be of some of the inputs.
    Stale,
}

/// What a change of a node did.
#[derive(Drop)]
pub struct Report<K: Ord, V> {
    /// How many outputs were made.
    pub made: u64,
    /// Whether all outputs were made anew.
    pub fell_back: bool,
    /// What changed in the table.
    pub changed: Delta<K, V>,
}

/// The outputs of units, kept beside their inputs. A change makes the outputs of the inputs that are put, and no other, unless it has
/// more than `FALL` keys.
#[derive(Drop)]
pub struct MapNode<M: Maker, const FALL: usize> {
    alloc: Global,
    inputs: Owned<M::Key, M::Input>,
    table: Owned<M::Key, M::Out>,
    state: NodeState,
    maker: M,
}

impl<M: Maker, const FALL: usize> Model for MapNode<M, FALL> {
    ghost use Rattle.std.specs.Prelude.{◌≡◌};
    ghost use Rattle.inc_table.specs.declared.node.NodeState.TheVariants.{Fresh};
    ghost use Rattle.inc_table.specs.Node.{Node, outputs_of};

    ghost Value = { Node M.Key M.Input M.Out M };

    ghost view = { λ node. record { inputs = node.inputs; table = node.table; state = node.state; maker = node.maker } };

    ghost invariant = { λ node. node.state ≡ Fresh → node.table ≡ outputs_of M.out_of node.inputs };
}

impl<M: Maker, const FALL: usize> MapNode<M, FALL>
where
    M::Key: Drop,
    M::Input: Drop,
    M::Out: Drop,
{
    ghost use Rattle.inc_table.specs.declared.node.NodeState.TheVariants.{Fresh, Stale};
    ghost use Rattle.inc_table.specs.Delta.{IsApplied, IsDifference, alters_each};
    ghost use Rattle.inc_table.specs.Maker.{more_made};
    ghost use Rattle.inc_table.specs.Node.{outputs_of, made_by};

    /// A fresh node with no inputs. It takes no memory.
    pub fn new(alloc: Global, maker: M) -> Self
        ensures { result ≡ record { inputs = []; table = []; state = Fresh; maker = maker } }
    {
        MapNode {
            alloc,
            inputs: Owned::new(alloc),
            table: Owned::new(alloc),
            state: NodeState::Fresh,
            maker,
        }
    }

    /// Applies a delta to the inputs, and makes the outputs of what it puts, or, where it has more than `FALL` keys, all outputs.
    /// Each of its changes is one: a value that is put differs from what is there, and a key that goes is there. Where memory runs
    /// out the answer is `OutOfMemory`, and the node is stale.
    pub fn change(
        &mut self,
        delta: Delta<M::Key, M::Input>,
    ) -> Result<Report<M::Key, M::Out>, OutOfMemory>
        requires fresh { self.old.state ≡ Fresh }
        requires alters { IsTrue (alters_each M.Key.cmp M.Input.eq delta self.old.inputs) }
        ensures inputs { OnOk result (IsApplied M.Key.cmp delta self.old.inputs self.new.inputs) }
        ensures table { OnOk result (self.new.table ≡ outputs_of M.out_of self.new.inputs) }
        ensures changed { IfOk result (λ report. IsDifference M.Key.cmp M.Out.eq self.old.table self.new.table report.changed) }
        ensures fell_back { IfOk result (λ report. report.fell_back ≡ nat_lt FALL (length delta)) }
        ensures made { IfOk result (λ report. report.made ≡ made_by FALL delta self.new.inputs) }
        ensures counted { IfOk result (λ report. M.made self.new.maker ≡ more_made report.made (M.made self.old.maker)) }
        ensures fresh { OnOk result (self.new.state ≡ Fresh) }
        ensures stale { OnErr result (self.new.state ≡ Stale) }
    {
        self.state = NodeState::Stale;
        let report = apply_and_make::<M, FALL>(
            self.alloc,
            &mut self.maker,
            &mut self.inputs,
            &mut self.table,
            delta,
        )?;
        self.state = NodeState::Fresh;
        Ok(report)
    }

    /// Takes these inputs in place of those that are there, and makes all outputs. The node may be stale. Where memory runs out the
    /// answer is `OutOfMemory`, and the node is stale.
    pub fn rebuild(
        &mut self,
        inputs: &Owned<M::Key, M::Input>,
    ) -> Result<Report<M::Key, M::Out>, OutOfMemory>
        ensures inputs { OnOk result (self.new.inputs ≡ inputs.now) }
        ensures table { OnOk result (self.new.table ≡ outputs_of M.out_of inputs.now) }
        ensures changed { IfOk result (λ report. IsDifference M.Key.cmp M.Out.eq self.old.table self.new.table report.changed) }
        ensures fell_back { IfOk result (λ report. report.fell_back ≡ true) }
        ensures made { IfOk result (λ report. report.made ≡ length inputs.now) }
        ensures counted { IfOk result (λ report. M.made self.new.maker ≡ more_made report.made (M.made self.old.maker)) }
        ensures fresh { OnOk result (self.new.state ≡ Fresh) }
        ensures stale { OnErr result (self.new.state ≡ Stale) }
    {
        self.state = NodeState::Stale;
        self.inputs = Owned::new(self.alloc);
        self.inputs = inputs.copy(self.alloc)?;
        let report = remake(self.alloc, &mut self.maker, &self.inputs, &mut self.table)?;
        self.state = NodeState::Fresh;
        Ok(report)
    }

    /// The outputs by key: of a fresh node those of its inputs.
    pub fn table(&self) -> &Owned<M::Key, M::Out>
        ensures table { result.now ≡ self.now.table }
        ensures made { self.now.state ≡ Fresh → self.now.table ≡ outputs_of M.out_of self.now.inputs }
    {
        &self.table
    }

    /// The inputs by key.
    pub fn inputs(&self) -> &Owned<M::Key, M::Input>
        ensures { result.now ≡ self.now.inputs }
    {
        &self.inputs
    }

    /// Whether the table is to be relied on.
    pub fn state(&self) -> NodeState
        ensures { result ≡ self.now.state }
    {
        self.state
    }
}
