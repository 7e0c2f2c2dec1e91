ghost use Rattle.std.specs.Prelude.{◌≡◌, ◌++◌, OnOk, OnErr};
ghost use Rattle.nv_base.specs.Growth.{GrowsAtEnd};
ghost use Rattle.expr_core.specs.Text.{part_text, relation_text, atom_text};

use super::right::put_relation;
use super::{put_bits, put_truth};
use crate::{Atom, Part, Rel, Right};
use nv_base::OutOfMemory;

// A part: a name, and bits in brackets.
fn put_part(out: &mut Vec<u8>, part: &Part) -> Result<(), OutOfMemory>
    ensures ok { OnOk result (out.new.items ≡ out.old.items ++ part_text part.now) }
    ensures err { OnErr result (GrowsAtEnd out.old.items out.new.items) }
{
    out.extend_from_slice(part.name.as_slice())?;
    put_bits(out, part.bits)?;
    Ok(())
}

fn put_comparison(
    out: &mut Vec<u8>,
    part: &Part,
    rel: Rel,
    right: &Right,
) -> Result<(), OutOfMemory>
    ensures ok { OnOk result (out.new.items ≡ out.old.items ++ part_text part.now ++ relation_text rel right.now) }
    ensures err { OnErr result (GrowsAtEnd out.old.items out.new.items) }
{
    put_part(out, part)?;
    put_relation(out, rel, right)?;
    Ok(())
}

/// Appends an atom as it was read.
pub(crate) fn put_read_atom(out: &mut Vec<u8>, atom: &Atom) -> Result<(), OutOfMemory>
    ensures ok { OnOk result (out.new.items ≡ out.old.items ++ atom_text atom.now) }
    ensures err { OnErr result (GrowsAtEnd out.old.items out.new.items) }
{
    match atom {
        Atom::Truth(holds) => put_truth(out, *holds),
        Atom::Bare(part) => put_part(out, part),
        Atom::Compare(part, rel, right) => put_comparison(out, part, *rel, right),
    }
}
