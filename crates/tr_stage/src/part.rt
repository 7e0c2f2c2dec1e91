//! Parts of a packet's fields that become other numbers.
ghost use Rattle.std.specs.Prelude.{◌≡◌, ◌+◌, ◌<◌, ◌≤◌, ◌^◌, IsTrue};
ghost use Rattle.nv_base.specs.Field.{field_width};
ghost use Rattle.act_core.specs.WellFormed.{are_bits_of};
ghost use Rattle.expr_core.specs.Width.{part_width};
ghost use Rattle.tr_stage.specs.Part.{replaced, with_bits, with_part};

use expr_core::Bits;
use nv_base::Field;
use pkt_core::Packet;

// 2 to the power of the number.
#[tactic(auto, using(crate::proofs::Parts::power_fits))]
fn power(count: u32) -> u128
    requires { count < 128 }
    ensures { result ≡ 2 ^ count }
{
    1 << count
}

// The number with another one for so many of its bits, from the first on.
#[tactic(auto, using(crate::proofs::Parts::whole_fits, crate::proofs::Parts::power_positive), unfolding(crate::specs::Part::replaced))]
fn replaced(first: u32, count: u32, old: u128, new: u128) -> u128
    requires within { first + count ≤ 48 }
    requires old { old < 2 ^ 48 }
    requires new { new < 2 ^ count }
    ensures { result ≡ replaced first count old new }
{
    let above = power(first + count);
    let unit = power(first);
    old / above * above + (new * unit + old % unit)
}

// The number, of so many bits, with another one for these of its bits.
#[tactic(auto, using(crate::proofs::Parts::still_fits))]
fn with_bits(bits: Bits, width: u8, old: u128, new: u128) -> u128
    requires width { width ≤ 48 }
    requires bits { IsTrue (are_bits_of width bits) }
    requires old { old < 2 ^ width }
    requires new { new < 2 ^ part_width bits width }
    ensures with { result ≡ with_bits bits old new }
    ensures fits { result < 2 ^ width }
{
    match bits {
        Bits::Whole => new,
        Bits::Bit(bit) => replaced(u32::from(bit), 1, old, new),
        Bits::Range(first, last) => {
            replaced(u32::from(first), u32::from(last - first) + 1, old, new)
        }
    }
}

/// Gives a part of a field another number, which fits it.
#[tactic(auto, using(crate::proofs::Parts::width_within))]
pub(crate) fn set_part(packet: &mut Packet, field: Field, bits: Bits, number: u128)
    requires bits { IsTrue (are_bits_of (field_width field) bits) }
    requires fits { number < 2 ^ part_width bits (field_width field) }
    ensures { packet.new ≡ with_part packet.old field bits number }
{
    let new = with_bits(bits, field.width(), packet.get(field), number);
    packet.set(field, new);
}
