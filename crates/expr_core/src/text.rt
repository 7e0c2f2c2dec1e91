//! Matches as text.
ghost use Rattle.std.specs.Prelude.{◌≡◌, ◌++◌, codes, OnOk, OnErr};
ghost use Rattle.nv_base.specs.Growth.{GrowsAtEnd};
ghost use Rattle.expr_core.specs.Text.{bits_text, rel_text, truth_text};
ghost use Rattle.expr_core.specs.declared.part.Bits.TheVariants.{Bit, Range};

mod constant;
mod expr;
mod right;
mod tree;
mod typed;

use crate::{Bits, Rel};
pub use constant::put_const;
pub(crate) use expr::put_read_atom;
use nv_base::{OutOfMemory, put_dec};
pub use tree::put_tree;
pub(crate) use typed::put_typed_atom;

/// Appends which bits of a field, in brackets; nothing where they are the whole field. After `OutOfMemory` the bytes before are
/// first, and part of the text may follow.
pub fn put_bits(out: &mut Vec<u8>, bits: Bits) -> Result<(), OutOfMemory>
    ensures ok { OnOk result (out.new.items ≡ out.old.items ++ bits_text bits) }
    ensures err { OnErr result (GrowsAtEnd out.old.items out.new.items) }
{
    match bits {
        Bits::Whole => Ok(()),
        Bits::Bit(bit) => put_bit(out, bit),
        Bits::Range(first, last) => put_range(out, first, last),
    }
}

fn put_bit(out: &mut Vec<u8>, bit: u8) -> Result<(), OutOfMemory>
    ensures ok { OnOk result (out.new.items ≡ out.old.items ++ bits_text (Bit bit)) }
    ensures err { OnErr result (GrowsAtEnd out.old.items out.new.items) }
{
    out.extend_from_slice(b"[")?;
    put_dec(out, u128::from(bit))?;
    out.extend_from_slice(b"]")?;
    Ok(())
}

fn put_range(out: &mut Vec<u8>, first: u8, last: u8) -> Result<(), OutOfMemory>
    ensures ok { OnOk result (out.new.items ≡ out.old.items ++ bits_text (Range first last)) }
    ensures err { OnErr result (GrowsAtEnd out.old.items out.new.items) }
{
    out.extend_from_slice(b"[")?;
    put_dec(out, u128::from(first))?;
    out.extend_from_slice(b"..")?;
    put_dec(out, u128::from(last))?;
    out.extend_from_slice(b"]")?;
    Ok(())
}

// A relation between its two sides, a space on each side of it.
fn rel_text(rel: Rel) -> &'static str
    ensures { result.now ≡ codes " " ++ rel_text rel ++ codes " " }
{
    match rel {
        Rel::Eq => " == ",
        Rel::Ne => " != ",
        Rel::Lt => " < ",
        Rel::Le => " <= ",
        Rel::Gt => " > ",
        Rel::Ge => " >= ",
    }
}

// A match that always or never holds.
fn truth_text(holds: bool) -> &'static str
    ensures { result.now ≡ truth_text holds }
{
    if holds { "1" } else { "0" }
}

fn put_truth(out: &mut Vec<u8>, holds: bool) -> Result<(), OutOfMemory>
    ensures ok { OnOk result (out.new.items ≡ out.old.items ++ truth_text holds) }
    ensures err { OnErr result (out.new.items ≡ out.old.items) }
{
    out.extend_from_slice(truth_text(holds).as_bytes())?;
    Ok(())
}
