ghost use Rattle.std.specs.Prelude.{◌≡◌, ◌<◌, ◌^◌, true, bit_and, bit_or};
ghost use Rattle.nv_base.specs.declared.field.Field.{Field};
ghost use Rattle.nv_base.specs.Field.{field_width};
ghost use Rattle.pkt_core.specs.Packet.{value};
ghost use Rattle.expr_sets.specs.Members.{agree};
ghost use Rattle.cube_core.specs.Cube.{covers, packet_of, share, asked, meet, everything, of_field};

use nv_base::Field;
use pkt_core::Packet;

/// The packets that have the value's bits of each field where the mask has ones. In the cubes that are made here, the
/// bits outside the mask are zero in the value.
#[derive(Clone, Copy, PartialEq, Eq)]
pub struct Cube {
    /// The value.
    pub value: Packet,
    /// The bits that count.
    pub mask: Packet,
}

// Whether two numbers agree in the bits of a mask.
fn agree(mask: u128, one: u128, other: u128) -> bool
    ensures { result ≡ agree mask one other }
{
    one & mask == other & mask
}

impl Cube {
    /// Whether the packet has the value's bits of each field where the mask has ones.
    pub fn covers(&self, packet: &Packet) -> bool
        ensures { result ≡ covers self.now packet.now }
    {
        Field::all().iter().all(|field| agree(
            self.mask.get(*field),
            packet.get(*field),
            self.value.get(*field),
        ))
    }

    /// One of the packets that the cube covers: its value.
    #[tactic(auto, using(crate::proofs::Covered::corner_covered))]
    pub fn corner(&self) -> Packet
        ensures value { result ≡ self.now.value }
        ensures covered { covers self.now result ≡ true }
    {
        self.value
    }

    /// The cube without mask, which covers every packet.
    pub(crate) fn everything() -> Cube
        ensures { result ≡ everything }
    {
        Cube {
            value: Packet::zero(),
            mask: Packet::zero(),
        }
    }

    /// The packets whose field agrees with a number in the bits of a mask.
    #[tactic(auto, using(std::proofs::lemmas::Nat::and_le_r))]
    pub(crate) fn of_field(field: Field, mask: u128, number: u128) -> Cube
        requires { mask < 2 ^ field_width field }
        ensures { result ≡ of_field field mask number }
    {
        let mut value = Packet::zero();
        value.set(field, number & mask);
        let mut bits = Packet::zero();
        bits.set(field, mask);
        Cube { value, mask: bits }
    }

    /// Whether there is a packet that both cover.
    pub(crate) fn shares(&self, other: &Cube) -> bool
        ensures { result ≡ share self.now other.now }
    {
        Field::all().iter().all(|field| {
            agree(
                self.mask.get(*field) & other.mask.get(*field),
                self.value.get(*field),
                other.value.get(*field),
            )
        })
    }

    // The bits of a field's value that the cube masks.
    #[tactic(auto, using(std::proofs::lemmas::Nat::and_le_l))]
    fn asked(&self, field: Field) -> u128
        ensures value { result ≡ asked self.now field }
        ensures fits { result < 2 ^ field_width field }
    {
        self.value.get(field) & self.mask.get(field)
    }

    /// What both cover, where they share a packet.
    pub(crate) fn meet(&self, other: &Cube) -> Cube
        ensures { result ≡ meet self.now other.now }
    {
        Cube {
            value: self.values_with(other),
            mask: self.masks_with(other),
        }
    }

    // The values of both in the bits that they mask.
    fn values_with(&self, other: &Cube) -> Packet
        ensures { result ≡ packet_of (λ field. bit_or (asked self.now field) (asked other.now field)) }
    {
        let mut packet = Packet::zero();
        for field in Field::all() {
            packet.set(*field, self.asked(*field) | other.asked(*field));
        }
        packet
    }

    // The masks of both.
    fn masks_with(&self, other: &Cube) -> Packet
        ensures { result ≡ packet_of (λ field. bit_or (value self.now.mask field) (value other.now.mask field)) }
    {
        let mut packet = Packet::zero();
        for field in Field::all() {
            packet.set(*field, self.mask.get(*field) | other.mask.get(*field));
        }
        packet
    }
}
