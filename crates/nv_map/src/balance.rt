//! A tree is put in balance where one side of it has grown or shrunk. Its entries and their order stay.

ghost use Rattle.std.specs.Prelude.{◌≡◌, [], ◌∷◌, ◌++◌};
ghost use Rattle.nv_map.specs.Node.{entries_of, tree_entries};

use crate::node::{Node, Tree};

/// The node, which has none below, with these below it, in balance.
pub(crate) fn with_low<K, V>(mut root: Box<Node<K, V>>, low: Tree<K, V>) -> Box<Node<K, V>>
    requires { root.value.0 ≡ [] }
    ensures { entries_of result.value ≡ tree_entries low ++ root.value.1 ∷ root.value.2 }
{
    root.put_low(low);
    balanced(root)
}

/// The node, which has none above, with these above it, in balance.
pub(crate) fn with_high<K, V>(mut root: Box<Node<K, V>>, high: Tree<K, V>) -> Box<Node<K, V>>
    requires { root.value.2 ≡ [] }
    ensures { entries_of result.value ≡ root.value.0 ++ root.value.1 ∷ tree_entries high }
{
    root.put_high(high);
    balanced(root)
}

// The same entries, where neither side has two levels more than the other. Before, one may have had two more.
fn balanced<K, V>(mut root: Box<Node<K, V>>) -> Box<Node<K, V>>
    ensures { entries_of result.value ≡ entries_of root.value }
{
    if root.falls_low() {
        let low = leaning_low(root.take_low());
        root.put_low(low);
        return lifted_low(root);
    }
    if root.falls_high() {
        let high = leaning_high(root.take_high());
        root.put_high(high);
        return lifted_high(root);
    }
    root
}

// The same entries, with no more levels above the root than below it.
fn leaning_low<K, V>(tree: Tree<K, V>) -> Tree<K, V>
    ensures { tree_entries result ≡ tree_entries tree }
{
    match tree {
        None => None,
        Some(root) => {
            if root.leans_high() {
                Some(lifted_high(root))
            } else {
                Some(root)
            }
        }
    }
}

// The same entries, with no more levels below the root than above it.
fn leaning_high<K, V>(tree: Tree<K, V>) -> Tree<K, V>
    ensures { tree_entries result ≡ tree_entries tree }
{
    match tree {
        None => None,
        Some(root) => {
            if root.leans_low() {
                Some(lifted_low(root))
            } else {
                Some(root)
            }
        }
    }
}

// The same entries, with the node below as the root.
fn lifted_low<K, V>(mut root: Box<Node<K, V>>) -> Box<Node<K, V>>
    ensures { entries_of result.value ≡ entries_of root.value }
{
    match root.take_low() {
        None => root,
        Some(mut low) => {
            root.put_low(low.take_high());
            low.put_high(Some(root));
            low
        }
    }
}

// The same entries, with the node above as the root.
fn lifted_high<K, V>(mut root: Box<Node<K, V>>) -> Box<Node<K, V>>
    ensures { entries_of result.value ≡ entries_of root.value }
{
    match root.take_high() {
        None => root,
        Some(mut high) => {
            root.put_high(high.take_low());
            high.put_low(Some(root));
            high
        }
    }
}
