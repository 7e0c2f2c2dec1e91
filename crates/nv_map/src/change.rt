//! Entries are put into a tree and taken out of it. No node is made or freed.

ghost use Rattle.std.specs.Prelude.{◌≡◌, ◌∷◌, ◌++◌, None, IsSome};
ghost use Rattle.nv_map.specs.Map.{KeysRise, value_at, with_entry, with_value, entry_by, without_by};
ghost use Rattle.nv_map.specs.Node.{entries_of, tree_entries};

use crate::balance::{with_high, with_low};
use crate::node::{Node, Tree};
use crate::{Entry, Probe};
use std::cmp::Ordering;
use std::mem;

/// The tree with an entry more, whose key it lacks.
pub(crate) fn put_into<K: Ord, V>(tree: Tree<K, V>, entry: Entry<K, V>) -> Box<Node<K, V>>
    requires rise { KeysRise K.cmp (tree_entries tree) }
    requires new { value_at K.cmp entry.0 (tree_entries tree) ≡ None }
    ensures { entries_of result.value ≡ with_entry K.cmp entry (tree_entries tree) }
{
    let Some(mut root) = tree else {
        return entry.into_node();
    };
    match entry.key().cmp(root.key()) {
        Ordering::Less => {
            let low = put_into(root.take_low(), entry);
            with_low(root, Some(low))
        }
        Ordering::Greater => {
            let high = put_into(root.take_high(), entry);
            with_high(root, Some(high))
        }
        Ordering::Equal => unreachable!(),
    }
}

/// The entry of the key that the probe is equal to, where there is one, and the tree without it.
pub(crate) fn take_from<K: Ord, V, P: Probe<K>>(
    tree: Tree<K, V>,
    probe: &P,
) -> (Option<Entry<K, V>>, Tree<K, V>)
    requires { KeysRise K.cmp (tree_entries tree) }
    ensures taken { result.0 ≡ entry_by (P.order probe.now) (tree_entries tree) }
    ensures rest { tree_entries result.1 ≡ without_by (P.order probe.now) (tree_entries tree) }
{
    let Some(mut root) = tree else {
        return (None, None);
    };
    match probe.compare(root.key()) {
        Ordering::Less => {
            let (taken, low) = take_from(root.take_low(), probe);
            (taken, Some(with_low(root, low)))
        }
        Ordering::Greater => {
            let (taken, high) = take_from(root.take_high(), probe);
            (taken, Some(with_high(root, high)))
        }
        Ordering::Equal => {
            let (taken, rest) = take_root(root);
            (Some(taken), rest)
        }
    }
}

// The entry of the root, and the others.
fn take_root<K, V>(mut root: Box<Node<K, V>>) -> (Entry<K, V>, Tree<K, V>)
    ensures entry { result.0 ≡ root.value.1 }
    ensures rest { tree_entries result.1 ≡ root.value.0 ++ root.value.2 }
{
    let low = root.take_low();
    let high = root.take_high();
    (Entry::from_node(root), joined(low, high))
}

// The entries of one tree, and then those of the other.
fn joined<K, V>(low: Tree<K, V>, high: Tree<K, V>) -> Tree<K, V>
    ensures { tree_entries result ≡ tree_entries low ++ tree_entries high }
{
    match high {
        None => low,
        Some(high) => {
            let (first, high) = take_first(high);
            let mut root = first.into_node();
            root.put_low(low);
            Some(with_high(root, high))
        }
    }
}

// The first entry, and the others.
fn take_first<K, V>(mut root: Box<Node<K, V>>) -> (Entry<K, V>, Tree<K, V>)
    ensures { entries_of root.value ≡ result.0 ∷ tree_entries result.1 }
{
    match root.take_low() {
        None => {
            let high = root.take_high();
            (Entry::from_node(root), high)
        }
        Some(low) => {
            let (first, low) = take_first(low);
            (first, Some(with_low(root, low)))
        }
    }
}

/// Puts another value at a key that is there, and answers the old one.
pub(crate) fn exchange_in<K: Ord, V>(tree: &mut Tree<K, V>, key: &K, value: V) -> V
    requires rise { KeysRise K.cmp (tree_entries tree.old) }
    requires there { IsSome (value_at K.cmp key.now (tree_entries tree.old)) }
    ensures old { Some result ≡ value_at K.cmp key.now (tree_entries tree.old) }
    ensures new { tree_entries tree.new ≡ with_value K.cmp key.now value (tree_entries tree.old) }
{
    let Some(root) = tree else { unreachable!() };
    let root: &mut Node<K, V> = root;
    match key.cmp(root.key()) {
        Ordering::Less => exchange_in(&mut root.low, key, value),
        Ordering::Greater => exchange_in(&mut root.high, key, value),
        Ordering::Equal => mem::replace(&mut root.value, value),
    }
}
