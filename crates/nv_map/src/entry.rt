ghost use Rattle.std.specs.Prelude.{◌≡◌, [], IfOk};

use crate::node::Node;
use nv_base::OutOfMemory;
use std::alloc::Global;
use std::marker::Model;

/// One entry, with the room that it takes in a map. A clause sees it as the pair of key and value.
#[derive(Drop)]
pub struct Entry<K, V> {
    pub(crate) node: Box<Node<K, V>>,
}

impl<K, V> Model for Entry<K, V> {
    ghost use Rattle.std.specs.Prelude.{◌≡◌, []};

    ghost Value = { K × V };

    ghost view = { λ entry. entry.node.value.1 };

    ghost invariant = { λ entry. (entry.node.value.0 ≡ []) × (entry.node.value.2 ≡ []) };
}

impl<K, V> Entry<K, V> {
    /// An entry of this key and this value. At `OutOfMemory` both are gone.
    pub fn new(alloc: Global, key: K, value: V) -> Result<Self, OutOfMemory>
    where
        K: Drop,
        V: Drop,
        ensures { IfOk result (λ entry. entry ≡ (key, value)) }
    {
        let node = Box::new(
            alloc,
            Node {
                key,
                value,
                height: 1,
                low: None,
                high: None,
            },
        )?;
        Ok(Entry { node })
    }

    /// The key.
    pub fn key(&self) -> &K
        ensures { result.now ≡ self.now.0 }
    {
        self.node.key()
    }

    /// The value.
    pub fn value(&self) -> &V
        ensures { result.now ≡ self.now.1 }
    {
        self.node.value()
    }

    /// The key and the value, and the room is freed.
    pub fn into_parts(self) -> (K, V)
        ensures { result ≡ self }
    {
        let Node {
            key,
            value,
            height: _,
            low,
            high,
        } = Box::into_inner(self.node);
        match (low, high) {
            (None, None) => (key, value),
            _ => unreachable!(),
        }
    }

    /// The node, which stands alone.
    pub(crate) fn into_node(self) -> Box<Node<K, V>>
        ensures { result.value ≡ ([], self, []) }
    {
        self.node
    }

    /// The entry whose node this is, which stands alone.
    pub(crate) fn from_node(mut node: Box<Node<K, V>>) -> Self
        requires low { node.value.0 ≡ [] }
        requires high { node.value.2 ≡ [] }
        ensures { result ≡ node.value.1 }
    {
        node.measure();
        Entry { node }
    }
}
