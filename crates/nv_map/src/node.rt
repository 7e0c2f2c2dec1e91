ghost use Rattle.std.specs.Prelude.{◌≡◌, []};
ghost use Rattle.nv_map.specs.Node.{tree_entries};

use std::marker::Model;
use std::mem;

/// Entries in order, or none.
pub(crate) type Tree<K, V> = Option<Box<Node<K, V>>>;

/// An entry, with the trees of those below and above it. A clause sees the entries below it, its own,
/// and those above it.
#[derive(Drop)]
pub(crate) struct Node<K, V> {
    pub(crate) key: K,
    pub(crate) value: V,
    /// How many levels there are, as far as `u8` can say. No clause speaks of it.
    pub(crate) height: u8,
    pub(crate) low: Tree<K, V>,
    pub(crate) high: Tree<K, V>,
}

impl<K, V> Model for Node<K, V> {
    ghost use Rattle.std.specs.Prelude.{List, length, ◌+◌};
    ghost use Rattle.nv_map.specs.Node.{Around, entries_of, tree_entries};

    ghost Value = { Around K V };

    ghost view = { λ node. (tree_entries node.low, (node.key, node.value), tree_entries node.high) };

    ghost size = { λ node. length (entries_of node) };

    ghost use Rattle.std.proofs.Common.{arith, length-append};

    ghost size_decreases = { λ a h. Prim.grind (arith, length-append) };
}

// How many levels a tree has.
fn height<K, V>(tree: &Tree<K, V>) -> u8 {
    match tree {
        None => 0,
        Some(node) => node.height,
    }
}

impl<K, V> Node<K, V> {
    /// The key of its own entry.
    pub(crate) fn key(&self) -> &K
        ensures { result.now ≡ self.now.1.0 }
    {
        &self.key
    }

    /// The value of its own entry.
    pub(crate) fn value(&self) -> &V
        ensures { result.now ≡ self.now.1.1 }
    {
        &self.value
    }

    /// The tree below.
    pub(crate) fn low(&self) -> &Tree<K, V>
        ensures { tree_entries result.now ≡ self.now.0 }
    {
        &self.low
    }

    /// The tree above.
    pub(crate) fn high(&self) -> &Tree<K, V>
        ensures { tree_entries result.now ≡ self.now.2 }
    {
        &self.high
    }

    /// Counts the levels anew.
    pub(crate) fn measure(&mut self)
        ensures { self.new ≡ self.old }
    {
        self.height = height(&self.low).max(height(&self.high)).saturating_add(1);
    }

    /// Takes the tree below.
    pub(crate) fn take_low(&mut self) -> Tree<K, V>
        ensures low { tree_entries result ≡ self.old.0 }
        ensures rest { self.new ≡ ([], self.old.1, self.old.2) }
    {
        self.low.take()
    }

    /// Takes the tree above.
    pub(crate) fn take_high(&mut self) -> Tree<K, V>
        ensures high { tree_entries result ≡ self.old.2 }
        ensures rest { self.new ≡ (self.old.0, self.old.1, []) }
    {
        self.high.take()
    }

    /// Puts a tree below, where there is none.
    pub(crate) fn put_low(&mut self, low: Tree<K, V>)
        requires { self.old.0 ≡ [] }
        ensures { self.new ≡ (tree_entries low, self.old.1, self.old.2) }
    {
        match mem::replace(&mut self.low, low) {
            None => {}
            Some(_) => unreachable!(),
        }
        self.measure();
    }

    /// Puts a tree above, where there is none.
    pub(crate) fn put_high(&mut self, high: Tree<K, V>)
        requires { self.old.2 ≡ [] }
        ensures { self.new ≡ (self.old.0, self.old.1, tree_entries high) }
    {
        match mem::replace(&mut self.high, high) {
            None => {}
            Some(_) => unreachable!(),
        }
        self.measure();
    }

    /// Whether there are more levels below than above.
    pub(crate) fn leans_low(&self) -> bool {
        height(&self.low) > height(&self.high)
    }

    /// Whether there are more levels above than below.
    pub(crate) fn leans_high(&self) -> bool {
        height(&self.high) > height(&self.low)
    }

    /// Whether there are two levels more below than above.
    pub(crate) fn falls_low(&self) -> bool {
        height(&self.low) > height(&self.high).saturating_add(1)
    }

    /// Whether there are two levels more above than below.
    pub(crate) fn falls_high(&self) -> bool {
        height(&self.high) > height(&self.low).saturating_add(1)
    }
}
