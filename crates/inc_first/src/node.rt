ghost use Rattle.std.specs.Prelude.{◌≡◌, [], OnOk, OnErr, IfOk, IsTrue};

use crate::firsts::{Marks, Table, apply};
use inc_group::Groups;
use inc_table::{Delta, Nested, NodeState, Owned};
use nv_base::OutOfMemory;
use std::alloc::Global;
use std::marker::Model;

/// Entries, and the first member of each group that has one: the least key of an entry that is in it. A change looks up the first
/// members of the groups that its keys leave or enter, and of no other, and no member is gone through: it costs a logarithm for each
/// group of each of its keys, whatever the size of the groups.
#[derive(Drop)]
pub struct FirstNode<G: Groups> {
    alloc: Global,
    groups: G,
    inputs: Owned<G::Key, G::Value>,
    // At each group the keys of its members.
    marks: Marks<G>,
    table: Table<G>,
    state: NodeState,
}

impl<G: Groups> Model for FirstNode<G> {
    ghost use Rattle.std.specs.Prelude.{◌≡◌};
    ghost use Rattle.nv_map.specs.Map.{KeysRise};
    ghost use Rattle.inc_table.specs.declared.node.NodeState.TheVariants.{Fresh};
    ghost use Rattle.inc_first.specs.First.{HasFirsts, Leading};
    ghost use Rattle.inc_first.specs.inner.Marks.{AreMarked};

    ghost Value = { Leading G.Key G.Value G.Group G };

    ghost view = { λ node. record { inputs = node.inputs; table = node.table; state = node.state; groups = node.groups } };

    ghost invariant = { λ node. node.state ≡ Fresh → KeysRise G.Key.cmp node.inputs × AreMarked G.Key.cmp G.Group.cmp G.groups_of node.inputs node.marks × HasFirsts G.Group.cmp G.groups_of node.inputs node.table };
}

impl<G: Groups> FirstNode<G>
where
    G::Key: Drop,
    G::Value: Drop,
    G::Group: Drop,
{
    ghost use Rattle.nv_map.specs.Map.{KeysRise};
    ghost use Rattle.inc_table.specs.declared.node.NodeState.TheVariants.{Fresh, Stale};
    ghost use Rattle.inc_table.specs.Delta.{IsApplied, IsDifference, alters_each};
    ghost use Rattle.inc_first.specs.First.{HasFirsts};

    /// A fresh node with no inputs. It takes no memory.
    pub fn new(alloc: Global, groups: G) -> Self
        ensures { result ≡ record { inputs = []; table = []; state = Fresh; groups = groups } }
    {
        FirstNode {
            alloc,
            groups,
            inputs: Owned::new(alloc),
            marks: Nested::new(alloc),
            table: Owned::new(alloc),
            state: NodeState::Fresh,
        }
    }

    /// Applies a delta to the inputs, looks up the first members of the groups that its keys leave or enter, and answers what changed in
    /// the table, as a delta that may be handed to a node whose inputs are that table. Each change of the delta is one: a value that is
    /// put differs from what is there, and a key that goes is there. Where memory runs out the answer is `OutOfMemory`, and the node is
    /// stale.
    pub fn change(
        &mut self,
        delta: Delta<G::Key, G::Value>,
    ) -> Result<Delta<G::Group, G::Key>, OutOfMemory>
        requires fresh { self.old.state ≡ Fresh }
        requires alters { IsTrue (alters_each G.Key.cmp G.Value.eq delta self.old.inputs) }
        ensures inputs { OnOk result (IsApplied G.Key.cmp delta self.old.inputs self.new.inputs) }
        ensures table { OnOk result (HasFirsts G.Group.cmp G.groups_of self.new.inputs self.new.table) }
        ensures changed { IfOk result (λ changed. IsDifference G.Group.cmp G.Key.eq self.old.table self.new.table changed) }
        ensures rise { IfOk result (λ changed. KeysRise G.Group.cmp changed) }
        ensures applied { IfOk result (λ changed. IsApplied G.Group.cmp changed self.old.table self.new.table) }
        ensures alters { IfOk result (λ changed. IsTrue (alters_each G.Group.cmp G.Key.eq changed self.old.table)) }
        ensures fresh { OnOk result (self.new.state ≡ Fresh) }
        ensures stale { OnErr result (self.new.state ≡ Stale) }
    {
        self.state = NodeState::Stale;
        let changed = apply(
            self.alloc,
            &self.groups,
            &mut self.inputs,
            &mut self.marks,
            &mut self.table,
            delta,
        )?;
        self.state = NodeState::Fresh;
        Ok(changed)
    }

    /// Takes these inputs in place of those that are there, and looks all first members up. The node may be stale. Where memory runs out
    /// the answer is `OutOfMemory`, and the node is stale.
    pub fn rebuild(&mut self, inputs: &Owned<G::Key, G::Value>) -> Result<(), OutOfMemory>
        ensures inputs { OnOk result (self.new.inputs ≡ inputs.now) }
        ensures table { OnOk result (HasFirsts G.Group.cmp G.groups_of inputs.now self.new.table) }
        ensures fresh { OnOk result (self.new.state ≡ Fresh) }
        ensures stale { OnErr result (self.new.state ≡ Stale) }
    {
        self.state = NodeState::Stale;
        self.inputs = Owned::new(self.alloc);
        self.marks = Nested::new(self.alloc);
        self.table = Owned::new(self.alloc);
        let delta = inputs.puts(self.alloc)?;
        apply(
            self.alloc,
            &self.groups,
            &mut self.inputs,
            &mut self.marks,
            &mut self.table,
            delta,
        )?;
        self.state = NodeState::Fresh;
        Ok(())
    }

    /// The groups that have a member, each with the first: of a fresh node those of its inputs.
    pub fn table(&self) -> &Owned<G::Group, G::Key>
        ensures table { result.now ≡ self.now.table }
        ensures firsts { self.now.state ≡ Fresh → HasFirsts G.Group.cmp G.groups_of self.now.inputs self.now.table }
    {
        &self.table
    }

    /// The inputs by key.
    pub fn inputs(&self) -> &Owned<G::Key, G::Value>
        ensures inputs { result.now ≡ self.now.inputs }
        ensures rise { self.now.state ≡ Fresh → KeysRise G.Key.cmp self.now.inputs }
    {
        &self.inputs
    }

    /// Whether the table is to be relied on.
    pub fn state(&self) -> NodeState
        ensures { result ≡ self.now.state }
    {
        self.state
    }
}
