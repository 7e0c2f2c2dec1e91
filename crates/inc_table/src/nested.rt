ghost use Rattle.std.specs.Prelude.{◌≡◌, [], OnOk};
ghost use Rattle.std.specs.Option.{option_copied};

use crate::Owned;
use nv_base::{Kept, OutOfMemory};
use std::alloc::Global;
use std::marker::Model;

/// Entries by two keys, owned: at each outer key the entries of the inner ones. A clause sees the list of outer keys and their entries.
#[derive(Drop)]
pub struct Nested<A: Ord, B: Ord, V> {
    alloc: Global,
    parts: Owned<A, Owned<B, V>>,
}

impl<A: Ord, B: Ord, V> Model for Nested<A, B, V> {
    ghost use Rattle.std.specs.Prelude.{List};

    ghost Value = { List (A × List (B × V)) };

    ghost view = { λ nested. nested.parts };
}

impl<A: Ord + Kept + Drop, B: Ord + Kept + Drop, V: Drop> Nested<A, B, V> {
    ghost use Rattle.nv_map.specs.Map.{value_at};
    ghost use Rattle.inc_table.specs.declared.delta.Change.TheVariants.{Put, Gone};
    ghost use Rattle.inc_table.specs.Nested.{IsChangedAt};

    /// No entries. It takes no memory.
    pub fn new(alloc: Global) -> Self
        ensures { result ≡ [] }
    {
        Nested {
            alloc,
            parts: Owned::new(alloc),
        }
    }

    /// The entries of an outer key.
    pub fn part(&self, outer: &A) -> Option<&Owned<B, V>>
        ensures { option_copied result ≡ value_at A.cmp outer.now self.now }
    {
        self.parts.get(outer)
    }

    /// The entries by outer key.
    pub fn parts(&self) -> &Owned<A, Owned<B, V>>
        ensures { result.now ≡ self.now }
    {
        &self.parts
    }

    /// Puts a value at two keys, whether one is there or not. At `OutOfMemory` no more is known of the entries of the outer key.
    pub fn set(&mut self, outer: &A, inner: &B, value: V) -> Result<(), OutOfMemory>
        ensures { OnOk result (IsChangedAt A.cmp B.cmp ((outer.now, inner.now), Put value) self.old self.new) }
    {
        let mut part = match self.parts.remove(outer) {
            None => Owned::new(self.alloc),
            Some(part) => part,
        };
        part.set(inner, value)?;
        self.parts.set(outer, part)
    }

    /// Takes the value at two keys out. Where there is none, nothing changes. At `OutOfMemory` no more is known of the entries of the
    /// outer key.
    pub fn remove(&mut self, outer: &A, inner: &B) -> Result<(), OutOfMemory>
        ensures { OnOk result (IsChangedAt A.cmp B.cmp ((outer.now, inner.now), Gone) self.old self.new) }
    {
        match self.parts.remove(outer) {
            None => Ok(()),
            Some(mut part) => {
                part.remove(inner);
                if part.is_empty() {
                    return Ok(());
                }
                self.parts.set(outer, part)
            }
        }
    }
}
