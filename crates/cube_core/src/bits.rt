//! Bits of fields.
ghost use Rattle.std.specs.Prelude.{◌≡◌, ◌≤◌, ◌<◌, ◌%◌, ◌^◌};
ghost use Rattle.nv_base.specs.Field.{field_width};
ghost use Rattle.cube_core.specs.Comparison.{has_bit, from_bit, lowest_bit, placed, placed_mask};

use expr_core::Bits;
use nv_base::Field;

// 2 to the power of the number.
#[tactic(auto, using(expr_core::proofs::Powers::power_fits))]
fn power(count: u32) -> u128
    requires { count < 128 }
    ensures { result ≡ 2 ^ count }
{
    1 << count
}

// The lowest bits of the number, as many as this.
#[tactic(auto, using(expr_core::proofs::Powers::all_left, expr_core::proofs::Powers::power_positive))]
fn lowest(number: u128, count: u32) -> u128
    ensures { result ≡ number % 2 ^ count }
{
    if count < 128 {
        number % power(count)
    } else {
        number
    }
}

// Whether the number has this bit.
pub(crate) fn has_bit(number: u128, bit: u8) -> bool
    requires { bit < 128 }
    ensures { result ≡ has_bit number bit }
{
    (number >> bit) % 2 == 1
}

// The bits of the number from this one on.
#[tactic(auto, using(crate::proofs::Shifts::from_bit_below, crate::proofs::Shifts::from_bit_fits))]
pub(crate) fn from_bit(bit: u8, number: u128) -> u128
    requires { bit < 128 }
    ensures value { result ≡ from_bit bit number }
    ensures within { result ≤ number }
{
    (number >> bit) << bit
}

// The lowest bit of a part.
fn lowest_bit(bits: Bits) -> u8
    ensures { result ≡ lowest_bit bits }
{
    match bits {
        Bits::Whole => 0,
        Bits::Bit(bit) => bit,
        Bits::Range(first, _) => first,
    }
}

// A part's number at its place in the field.
pub(crate) fn placed(field: Field, bits: Bits, number: u128) -> u128
    ensures value { result ≡ placed bits (field_width field) number }
    ensures fits { result < 2 ^ field_width field }
{
    let width = field.width();
    let lowest_bit = lowest_bit(bits);
    if lowest_bit < width {
        lowest(number, u32::from(width - lowest_bit)) << lowest_bit
    } else {
        0
    }
}

// The mask of a part, at its place in the field.
pub(crate) fn placed_mask(field: Field, bits: Bits, mask: u128) -> u128
    ensures value { result ≡ placed_mask bits (field_width field) mask }
    ensures fits { result < 2 ^ field_width field }
{
    placed(field, bits, lowest(mask, bits.count(field.width())))
}
