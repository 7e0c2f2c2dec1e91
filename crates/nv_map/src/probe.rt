use std::cmp::Ordering;

/// What is looked for among keys: a key, or what compares with keys as one does, such as a borrowed name, or as a place between
/// two of them does.
pub trait Probe<K: Ord> {
    ghost use Rattle.std.specs.Prelude.{◌≡◌};
    ghost use Rattle.std.specs.declared.cmp.Ordering.{Ordering};
    ghost use Rattle.nv_map.specs.Map.{PartsKeys};

    ghost order: { Self → K → Ordering };

    /// Whether it is below the key, equal to it, or above it.
    fn compare(&self, key: &K) -> Ordering
        ensures { result ≡ order self.now key.now };

    /// It is below each key that is above one that it is not above.
    ghost parts: { (probe : Self) → PartsKeys K.cmp (order probe) };
}

impl<K: Ord> Probe<K> for K {
    ghost use Rattle.nv_map.specs.inner.Keys.{keys_part};

    ghost order = { K.cmp };

    ghost parts = { keys_part K.Ord.total };

    fn compare(&self, key: &K) -> Ordering {
        self.cmp(key)
    }
}
