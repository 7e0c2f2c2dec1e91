ghost use Rattle.std.specs.Prelude.{◌≡◌, ◌++◌, OnOk, OnErr};
ghost use Rattle.nv_base.specs.Growth.{GrowsAtEnd};
ghost use Rattle.nv_base.specs.Field.{field_name};
ghost use Rattle.expr_core.specs.Predicate.{pred_name};
ghost use Rattle.expr_core.specs.Text.{bits_text, relation_text, typed_atom_text};

use super::right::put_relation;
use super::{put_bits, put_truth};
use crate::{Bits, Pred, Rel, Right, TypedAtom};
use nv_base::{Field, OutOfMemory};

// A part of a field: its name, and bits in brackets.
fn put_part(out: &mut Vec<u8>, field: Field, bits: Bits) -> Result<(), OutOfMemory>
    ensures ok { OnOk result (out.new.items ≡ out.old.items ++ field_name field ++ bits_text bits) }
    ensures err { OnErr result (GrowsAtEnd out.old.items out.new.items) }
{
    out.extend_from_slice(field.name().as_bytes())?;
    put_bits(out, bits)?;
    Ok(())
}

fn put_comparison(
    out: &mut Vec<u8>,
    field: Field,
    bits: Bits,
    rel: Rel,
    right: &Right,
) -> Result<(), OutOfMemory>
    ensures ok { OnOk result (out.new.items ≡ out.old.items ++ field_name field ++ bits_text bits ++ relation_text rel right.now) }
    ensures err { OnErr result (GrowsAtEnd out.old.items out.new.items) }
{
    put_part(out, field, bits)?;
    put_relation(out, rel, right)?;
    Ok(())
}

fn put_predicate(out: &mut Vec<u8>, predicate: Pred) -> Result<(), OutOfMemory>
    ensures ok { OnOk result (out.new.items ≡ out.old.items ++ pred_name predicate) }
    ensures err { OnErr result (out.new.items ≡ out.old.items) }
{
    out.extend_from_slice(predicate.name().as_bytes())?;
    Ok(())
}

/// Appends an atom of a checked match.
pub(crate) fn put_typed_atom(out: &mut Vec<u8>, atom: &TypedAtom) -> Result<(), OutOfMemory>
    ensures ok { OnOk result (out.new.items ≡ out.old.items ++ typed_atom_text atom.now) }
    ensures err { OnErr result (GrowsAtEnd out.old.items out.new.items) }
{
    match atom {
        TypedAtom::Truth(holds) => put_truth(out, *holds),
        TypedAtom::Bare(field, bits) => put_part(out, *field, *bits),
        TypedAtom::Holds(predicate) => put_predicate(out, *predicate),
        TypedAtom::Compare(field, bits, rel, right) => {
            put_comparison(out, *field, *bits, *rel, right)
        }
    }
}
