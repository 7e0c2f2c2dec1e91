//! The cubes of a comparison of a part with a number.
ghost use Rattle.std.specs.Prelude.{◌≡◌, [], ◌∷◌, ◌++◌, ◌<◌, ◌≤◌, ◌^◌, IfOk, OnOk, if◌then◌else◌};
ghost use Rattle.nv_base.specs.Field.{field_width};
ghost use Rattle.cube_core.specs.Comparison.{has_bit, differs_at, differing, first_bits, holds_of_equals, related};
ghost use Rattle.cube_core.specs.Cubes.{masked_cubes};

use crate::Cube;
use crate::bits::{from_bit, has_bit, placed, placed_mask};
use expr_core::{Bits, Rel};
use expr_sets::Masked;
use nv_base::{Field, Items, OutOfMemory};
use std::alloc::Global;

// The packets whose field agrees with a number in the higher bits of a mask, and has the opposite of this bit.
fn differs_at(field: Field, mask: u128, number: u128, bit: u8) -> Cube
    requires within { bit < field_width field }
    requires fits { mask < 2 ^ field_width field }
    ensures { result ≡ differs_at field mask number bit }
{
    Cube::of_field(field, from_bit(bit, mask), number ^ (1 << bit))
}

// Puts last the cube of a bit, where it is one of these bits.
fn add_bit(
    cubes: &mut Items<Cube>,
    field: Field,
    mask: u128,
    number: u128,
    bits: u128,
    bit: u8,
) -> Result<(), OutOfMemory>
    requires within { bit < field_width field }
    requires fits { mask < 2 ^ field_width field }
    ensures { OnOk result (cubes.new ≡ cubes.old ++ (if has_bit bits bit then differs_at field mask number bit ∷ [] else [])) }
{
    if has_bit(bits, bit) {
        cubes.push(differs_at(field, mask, number, bit))?;
    }
    Ok(())
}

/// The packets whose field, of the bits of a mask, differs from a number first in one of these bits.
pub(crate) fn differing(
    alloc: Global,
    field: Field,
    mask: u128,
    number: u128,
    bits: u128,
) -> Result<Items<Cube>, OutOfMemory>
    requires { mask < 2 ^ field_width field }
    ensures { IfOk result (λ cubes. cubes ≡ differing field mask number bits) }
{
    let mut cubes = Items::new(alloc);
    let mut left = field.width();
    while 0 < left {
        left -= 1;
        add_bit(&mut cubes, field, mask, number, bits, left)?;
    }
    Ok(cubes)
}

// The first bits in which a number that is in the relation, and is not equal, may differ from this one.
fn first_bits(rel: Rel, mask: u128, number: u128) -> u128
    ensures { result ≡ first_bits rel mask number }
{
    match rel {
        Rel::Eq => 0,
        Rel::Ne => mask,
        Rel::Lt | Rel::Le => mask & number,
        Rel::Gt | Rel::Ge => mask ^ (mask & number),
    }
}

// Whether equal numbers are in the relation.
fn holds_of_equals(rel: Rel) -> bool
    ensures { result ≡ holds_of_equals rel }
{
    match rel {
        Rel::Eq | Rel::Le | Rel::Ge => true,
        Rel::Ne | Rel::Lt | Rel::Gt => false,
    }
}

// The packets whose field, of the bits of a mask, is in the relation to a number.
fn related(
    alloc: Global,
    field: Field,
    mask: u128,
    rel: Rel,
    number: u128,
) -> Result<Items<Cube>, OutOfMemory>
    requires { mask < 2 ^ field_width field }
    ensures { IfOk result (λ cubes. cubes ≡ related field mask rel number) }
{
    let mut cubes = differing(alloc, field, mask, number, first_bits(rel, mask, number))?;
    if holds_of_equals(rel) {
        cubes.push(Cube::of_field(field, mask, number))?;
    }
    Ok(cubes)
}

/// The cubes of a comparison of a part with a number, of which the bits of a mask count.
pub(crate) fn masked_cubes(
    alloc: Global,
    field: Field,
    bits: Bits,
    rel: Rel,
    masked: Masked,
) -> Result<Items<Cube>, OutOfMemory>
    ensures { IfOk result (λ cubes. cubes ≡ masked_cubes field bits rel masked) }
{
    related(
        alloc,
        field,
        placed_mask(field, bits, masked.mask),
        rel,
        placed(field, bits, masked.number),
    )
}
