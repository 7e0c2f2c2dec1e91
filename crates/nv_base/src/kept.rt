ghost use Rattle.std.specs.Prelude.{◌≡◌, true, IfOk};
ghost use Rattle.nv_base.specs.inner.Exact as tells;

use crate::{Field, Ip4, Items, Mac, Name, ObjId, OutOfMemory, Prefix};
use std::alloc::Global;

/// A value that can be copied whole, and whose `==` is equality.
pub trait Kept: Sized + Eq {
    /// An equal value. Where memory runs out the answer is `OutOfMemory`.
    fn copy(&self, alloc: Global) -> Result<Self, OutOfMemory>
        ensures { IfOk result (λ copied. copied ≡ self.now) };

    /// Values that are equal by `==` are one value.
    ghost exact: { (a b : Self) → Self.eq a b ≡ true → a ≡ b };
}

impl Kept for () {
    ghost exact = { tells.unit };

    fn copy(&self, _alloc: Global) -> Result<Self, OutOfMemory> {
        Ok(())
    }
}

impl Kept for bool {
    ghost exact = { tells.boolean };

    fn copy(&self, _alloc: Global) -> Result<Self, OutOfMemory> {
        Ok(*self)
    }
}

impl Kept for u8 {
    ghost exact = { tells.number };

    fn copy(&self, _alloc: Global) -> Result<Self, OutOfMemory> {
        Ok(*self)
    }
}

impl Kept for u16 {
    ghost exact = { tells.number };

    fn copy(&self, _alloc: Global) -> Result<Self, OutOfMemory> {
        Ok(*self)
    }
}

impl Kept for u32 {
    ghost exact = { tells.number };

    fn copy(&self, _alloc: Global) -> Result<Self, OutOfMemory> {
        Ok(*self)
    }
}

impl Kept for u64 {
    ghost exact = { tells.number };

    fn copy(&self, _alloc: Global) -> Result<Self, OutOfMemory> {
        Ok(*self)
    }
}

impl Kept for u128 {
    ghost exact = { tells.number };

    fn copy(&self, _alloc: Global) -> Result<Self, OutOfMemory> {
        Ok(*self)
    }
}

impl Kept for usize {
    ghost exact = { tells.number };

    fn copy(&self, _alloc: Global) -> Result<Self, OutOfMemory> {
        Ok(*self)
    }
}

impl Kept for ObjId {
    ghost exact = { tells.object };

    fn copy(&self, _alloc: Global) -> Result<Self, OutOfMemory> {
        Ok(*self)
    }
}

impl Kept for Mac {
    ghost exact = { tells.number };

    fn copy(&self, _alloc: Global) -> Result<Self, OutOfMemory> {
        Ok(*self)
    }
}

impl Kept for Ip4 {
    ghost exact = { tells.address };

    fn copy(&self, _alloc: Global) -> Result<Self, OutOfMemory> {
        Ok(*self)
    }
}

impl Kept for Prefix {
    ghost exact = { tells.block };

    fn copy(&self, _alloc: Global) -> Result<Self, OutOfMemory> {
        Ok(*self)
    }
}

impl Kept for Field {
    ghost exact = { tells.field };

    fn copy(&self, _alloc: Global) -> Result<Self, OutOfMemory> {
        Ok(*self)
    }
}

impl Kept for Name {
    ghost exact = { tells.list _ tells.number };

    fn copy(&self, alloc: Global) -> Result<Self, OutOfMemory> {
        Name::from_slice(alloc, self.as_slice())
    }
}

impl<T: Kept> Kept for Option<T> {
    ghost exact = { tells.option T.eq T.exact };

    fn copy(&self, alloc: Global) -> Result<Self, OutOfMemory> {
        match self {
            Some(value) => Ok(Some(value.copy(alloc)?)),
            None => Ok(None),
        }
    }
}

impl<A: Kept + Drop, B: Kept + Drop> Kept for (A, B) {
    ghost exact = { tells.pair A.eq B.eq A.exact B.exact };

    fn copy(&self, alloc: Global) -> Result<Self, OutOfMemory> {
        Ok((self.0.copy(alloc)?, self.1.copy(alloc)?))
    }
}

impl<A: Kept + Drop, B: Kept + Drop, C: Kept + Drop> Kept for (A, B, C) {
    ghost exact = { tells.triple A.eq B.eq C.eq A.exact B.exact C.exact };

    fn copy(&self, alloc: Global) -> Result<Self, OutOfMemory> {
        Ok((
            self.0.copy(alloc)?,
            self.1.copy(alloc)?,
            self.2.copy(alloc)?,
        ))
    }
}

impl<T: Kept + Drop> Kept for Items<T> {
    ghost exact = { tells.list T.eq T.exact };

    fn copy(&self, alloc: Global) -> Result<Self, OutOfMemory> {
        let mut copied = Items::new(alloc);
        for item in self.as_slice() {
            copied.push(item.copy(alloc)?)?;
        }
        Ok(copied)
    }
}
