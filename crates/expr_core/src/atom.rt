ghost use Rattle.std.specs.Prelude.{◌≡◌, ◌++◌, IfOk, OnOk, OnErr};
ghost use Rattle.nv_base.specs.Growth.{GrowsAtEnd};
ghost use Rattle.expr_core.specs.Text.{Writing};

use nv_base::OutOfMemory;
use std::alloc::Global;

/// What a tree needs of its atoms: to copy them, and to write them.
pub trait TreeAtom: Sized {
    /// How they are written, and which are comparisons.
    ghost writing: { Writing Self };

    /// The same atom. Where memory runs out the answer is `OutOfMemory`.
    fn copy_atom(&self, alloc: Global) -> Result<Self, OutOfMemory>
        ensures { IfOk result (λ copied. copied ≡ self.now) };

    /// Whether it is a comparison, which `!` negates only in parentheses.
    fn is_comparison(&self) -> bool
        ensures { result ≡ (writing).compares self.now };

    /// Appends its text. After `OutOfMemory` more bytes may follow what was there.
    fn put(&self, out: &mut Vec<u8>) -> Result<(), OutOfMemory>
        ensures ok { OnOk result (out.new.items ≡ out.old.items ++ (writing).text self.now) }
        ensures err { OnErr result (GrowsAtEnd out.old.items out.new.items) };
}
