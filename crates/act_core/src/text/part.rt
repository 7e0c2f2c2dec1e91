ghost use Rattle.std.specs.Prelude.{◌≡◌, ◌++◌, OnOk, OnErr};
ghost use Rattle.nv_base.specs.Growth.{GrowsAtEnd};
ghost use Rattle.act_core.specs.Text.{part_text};

use expr_core::{Bits, put_bits};
use nv_base::{Field, OutOfMemory};

/// Appends a part of a field: its name, and bits in brackets.
pub(super) fn put_part(out: &mut Vec<u8>, field: Field, bits: Bits) -> Result<(), OutOfMemory>
    ensures ok { OnOk result (out.new.items ≡ out.old.items ++ part_text field bits) }
    ensures err { OnErr result (GrowsAtEnd out.old.items out.new.items) }
{
    out.extend_from_slice(field.name().as_bytes())?;
    put_bits(out, bits)?;
    Ok(())
}
