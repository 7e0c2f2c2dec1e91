//! Entries are found in a tree.

ghost use Rattle.std.specs.Prelude.{◌≡◌};
ghost use Rattle.std.specs.Option.{option_copied, option_map};
ghost use Rattle.nv_map.specs.Map.{KeysRise, value_by, first_entry, entry_above};
ghost use Rattle.nv_map.specs.Node.{tree_entries};

use crate::Probe;
use crate::node::{Node, Tree};
use std::cmp::Ordering;

/// The value at the key that the probe is equal to.
pub(crate) fn value_at<'a, K: Ord, V, P: Probe<K>>(tree: &'a Tree<K, V>, probe: &P) -> Option<&'a V>
    requires { KeysRise K.cmp (tree_entries tree.now) }
    ensures { option_copied result ≡ value_by (P.order probe.now) (tree_entries tree.now) }
{
    let Some(root) = tree else {
        return None;
    };
    match probe.compare(root.key()) {
        Ordering::Less => value_at(root.low(), probe),
        Ordering::Greater => value_at(root.high(), probe),
        Ordering::Equal => Some(root.value()),
    }
}

/// The first entry.
pub(crate) fn first<K, V>(tree: &Tree<K, V>) -> Option<(&K, &V)>
    ensures { option_map (λ e. (e.0.now, e.1.now)) result ≡ first_entry (tree_entries tree.now) }
{
    let Some(root) = tree else {
        return None;
    };
    match first(root.low()) {
        None => Some((root.key(), root.value())),
        found => found,
    }
}

/// The entry of the least key that the probe is below.
pub(crate) fn first_above<'a, K: Ord, V, P: Probe<K>>(
    tree: &'a Tree<K, V>,
    probe: &P,
) -> Option<(&'a K, &'a V)>
    requires { KeysRise K.cmp (tree_entries tree.now) }
    ensures { option_map (λ e. (e.0.now, e.1.now)) result ≡ entry_above (P.order probe.now) (tree_entries tree.now) }
{
    let Some(root) = tree else {
        return None;
    };
    if probe.compare(root.key()).is_lt() {
        return match first_above(root.low(), probe) {
            None => Some((root.key(), root.value())),
            found => found,
        };
    }
    first_above(root.high(), probe)
}

/// How many levels a tree has, counted anew.
pub(crate) fn levels<K, V>(tree: &Tree<K, V>) -> usize {
    match tree {
        None => 0,
        Some(root) => {
            let root: &Node<K, V> = root;
            levels(&root.low).max(levels(&root.high)).saturating_add(1)
        }
    }
}
