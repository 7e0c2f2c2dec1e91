ghost use Rattle.std.specs.Prelude.{◌≡◌, [], OnOk, OnErr, IfOk, IsTrue};

use crate::Link;
use crate::joining::{Table, alters_left, apply_left, apply_right};
use inc_table::{Delta, Nested, NodeState, Owned};
use nv_base::{Kept, OutOfMemory};
use std::alloc::Global;
use std::marker::Model;

/// Left entries, each with the right value that it names. A change on the left looks up what it puts; a change on the right touches the
/// left entries that name what changes, and no other.
#[derive(Drop)]
pub struct JoinNode<L: Link> {
    alloc: Global,
    link: L,
    right: Owned<L::RightKey, L::Right>,
    table: Table<L>,
    // At each right key the left keys that name it.
    index: Nested<L::RightKey, L::LeftKey, ()>,
    state: NodeState,
}

impl<L: Link> Model for JoinNode<L> {
    ghost use Rattle.std.specs.Prelude.{◌≡◌};
    ghost use Rattle.inc_table.specs.declared.node.NodeState.TheVariants.{Fresh};
    ghost use Rattle.inc_join.specs.Join.{Joining, joined, lefts_of};
    ghost use Rattle.inc_join.specs.inner.Index.{IsIndexed};

    ghost Value = { Joining L.LeftKey L.Left L.RightKey L.Right L };

    ghost view = { λ node. record { left = lefts_of node.table; right = node.right; table = node.table; state = node.state; link = node.link } };

    ghost invariant = { λ node. node.state ≡ Fresh → (node.table ≡ joined L.RightKey.cmp L.link_of (lefts_of node.table) node.right) × IsIndexed L.LeftKey.cmp L.RightKey.cmp L.link_of node.table node.index };
}

impl<L: Link> JoinNode<L>
where
    L::LeftKey: Drop,
    L::Left: Drop,
    L::RightKey: Drop,
    L::Right: Drop,
{
    ghost use Rattle.inc_table.specs.declared.node.NodeState.TheVariants.{Fresh, Stale};
    ghost use Rattle.inc_table.specs.Delta.{IsApplied, IsDifference, alters_each};
    ghost use Rattle.inc_join.specs.Join.{joined, same_joined};

    /// A fresh node with no inputs. It takes no memory.
    pub fn new(alloc: Global, link: L) -> Self
        ensures { result ≡ record { left = []; right = []; table = []; state = Fresh; link = link } }
    {
        JoinNode {
            alloc,
            link,
            right: Owned::new(alloc),
            table: Owned::new(alloc),
            index: Nested::new(alloc),
            state: NodeState::Fresh,
        }
    }

    /// Whether each change of a delta changes a left value: one that is put is not there yet, and a key that goes is there.
    pub fn alters_left(&self, delta: &Delta<L::LeftKey, L::Left>) -> bool
        ensures { result ≡ alters_each L.LeftKey.cmp L.Left.eq delta.now self.now.left }
    {
        alters_left(&self.table, delta)
    }

    /// Whether each change of a delta changes a right value.
    pub fn alters_right(&self, delta: &Delta<L::RightKey, L::Right>) -> bool
        ensures { result ≡ alters_each L.RightKey.cmp L.Right.eq delta.now self.now.right }
    {
        self.right.alters_each(delta)
    }

    /// Applies a delta to the left values, joins what it puts, and answers what changed in the table. Each of its changes is one: a
    /// value that is put differs from what is there, and a key that goes is there. Where memory runs out the answer is `OutOfMemory`,
    /// and the node is stale.
    pub fn change_left(
        &mut self,
        delta: Delta<L::LeftKey, L::Left>,
    ) -> Result<Delta<L::LeftKey, (L::Left, Option<L::Right>)>, OutOfMemory>
        requires fresh { self.old.state ≡ Fresh }
        requires alters { IsTrue (alters_each L.LeftKey.cmp L.Left.eq delta self.old.left) }
        ensures left { OnOk result (IsApplied L.LeftKey.cmp delta self.old.left self.new.left) }
        ensures right { OnOk result (self.new.right ≡ self.old.right) }
        ensures table { OnOk result (self.new.table ≡ joined L.RightKey.cmp L.link_of self.new.left self.new.right) }
        ensures changed { IfOk result (λ changed. IsDifference L.LeftKey.cmp (same_joined L.Left.eq L.Right.eq) self.old.table self.new.table changed) }
        ensures fresh { OnOk result (self.new.state ≡ Fresh) }
        ensures stale { OnErr result (self.new.state ≡ Stale) }
    {
        self.state = NodeState::Stale;
        let changed = apply_left(
            self.alloc,
            &self.link,
            &self.right,
            &mut self.table,
            &mut self.index,
            delta,
        )?;
        self.state = NodeState::Fresh;
        Ok(changed)
    }

    /// Applies a delta to the right values, joins the left entries that name what it changes anew, and answers what changed in the
    /// table. Each of its changes is one. Where memory runs out the answer is `OutOfMemory`, and the node is stale.
    pub fn change_right(
        &mut self,
        delta: Delta<L::RightKey, L::Right>,
    ) -> Result<Delta<L::LeftKey, (L::Left, Option<L::Right>)>, OutOfMemory>
        requires fresh { self.old.state ≡ Fresh }
        requires alters { IsTrue (alters_each L.RightKey.cmp L.Right.eq delta self.old.right) }
        ensures left { OnOk result (self.new.left ≡ self.old.left) }
        ensures right { OnOk result (IsApplied L.RightKey.cmp delta self.old.right self.new.right) }
        ensures table { OnOk result (self.new.table ≡ joined L.RightKey.cmp L.link_of self.new.left self.new.right) }
        ensures changed { IfOk result (λ changed. IsDifference L.LeftKey.cmp (same_joined L.Left.eq L.Right.eq) self.old.table self.new.table changed) }
        ensures fresh { OnOk result (self.new.state ≡ Fresh) }
        ensures stale { OnErr result (self.new.state ≡ Stale) }
    {
        self.state = NodeState::Stale;
        let changed = apply_right(
            self.alloc,
            &self.link,
            &mut self.right,
            &mut self.table,
            &self.index,
            delta,
        )?;
        self.state = NodeState::Fresh;
        Ok(changed)
    }

    /// Takes these inputs in place of those that are there, and joins all. The node may be stale. Where memory runs out the answer is
    /// `OutOfMemory`, and the node is stale.
    pub fn rebuild(
        &mut self,
        left: &Owned<L::LeftKey, L::Left>,
        right: &Owned<L::RightKey, L::Right>,
    ) -> Result<(), OutOfMemory>
        ensures left { OnOk result (self.new.left ≡ left.now) }
        ensures right { OnOk result (self.new.right ≡ right.now) }
        ensures table { OnOk result (self.new.table ≡ joined L.RightKey.cmp L.link_of left.now right.now) }
        ensures fresh { OnOk result (self.new.state ≡ Fresh) }
        ensures stale { OnErr result (self.new.state ≡ Stale) }
    {
        self.state = NodeState::Stale;
        self.table = Owned::new(self.alloc);
        self.index = Nested::new(self.alloc);
        self.right = right.copy(self.alloc)?;
        let delta = left.puts(self.alloc)?;
        apply_left(
            self.alloc,
            &self.link,
            &self.right,
            &mut self.table,
            &mut self.index,
            delta,
        )?;
        self.state = NodeState::Fresh;
        Ok(())
    }

    /// The left entries by key, each with the right value that it names: of a fresh node as its inputs are.
    pub fn table(&self) -> &Owned<L::LeftKey, (L::Left, Option<L::Right>)>
        ensures table { result.now ≡ self.now.table }
        ensures joined { self.now.state ≡ Fresh → self.now.table ≡ joined L.RightKey.cmp L.link_of self.now.left self.now.right }
    {
        &self.table
    }

    /// Whether the table is to be relied on.
    pub fn state(&self) -> NodeState
        ensures { result ≡ self.now.state }
    {
        self.state
    }
}
