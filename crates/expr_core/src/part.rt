ghost use Rattle.std.specs.Prelude.{◌≡◌, IfOk};

use nv_base::{Kept, Name, OutOfMemory};
use std::alloc::Global;

/// Which bits of a field a part is, numbered from 0, the lowest.
#[derive(Clone, Copy, PartialEq, Eq)]
pub enum Bits {
    /// All of them.
    Whole,
    /// The bit of this number.
    Bit(u8),
    /// The bits from the first number to the last.
    Range(u8, u8),
}

/// A part of a packet as a match names it. Two parts are equal by `==` whatever their offsets.
#[derive(Drop)]
pub struct Part {
    /// The name of a field or of a predicate.
    pub name: Name,
    /// Which bits of the field.
    pub bits: Bits,
    /// The offset of the name in the text, in bytes.
    pub offset: u32,
}

impl Part {
    /// The same part, at the same offset. Where memory runs out the answer is `OutOfMemory`.
    pub fn copy(&self, alloc: Global) -> Result<Self, OutOfMemory>
        ensures { IfOk result (λ copied. copied ≡ self.now) }
    {
        Ok(Part {
            name: self.name.copy(alloc)?,
            bits: self.bits,
            offset: self.offset,
        })
    }
}

impl PartialEq for Part {
    ghost use Rattle.expr_core.specs.EqualParts.{part_eq};
    ghost use Rattle.expr_core.specs.inner.EqualParts.{part_per};

    ghost eq = { part_eq };

    ghost laws = { part_per };

    fn eq(&self, other: &Self) -> bool {
        self.name == other.name && self.bits == other.bits
    }
}

impl Eq for Part {
    ghost use Rattle.expr_core.specs.inner.EqualParts.{part_equiv};

    ghost laws = { part_equiv };
}
