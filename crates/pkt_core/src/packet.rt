ghost use Rattle.std.specs.Prelude.{◌≡◌, ◌≢◌, ◌<◌, ◌^◌};
ghost use Rattle.nv_base.specs.Field.{field_count, field_width};
ghost use Rattle.pkt_core.specs.Packet.{place, value, with_value, exchanged, zero_packet, IsPacket};
ghost use Rattle.nv_base.specs.declared.field.Field.{Field};

use nv_base::{FIELD_COUNT, Field};
use std::marker::Model;

/// A packet: a number for each field, which fits the field's width. A clause sees the list of the numbers, in the
/// order of the fields. Packets are ordered by their numbers, in that order.
#[derive(Clone, Copy, PartialEq, Eq, PartialOrd, Ord)]
pub struct Packet {
    pub(crate) numbers: [u64; FIELD_COUNT],
}

impl Model for Packet {
    ghost use Rattle.std.specs.Prelude.{List, ℕ};

    ghost Value = { List ℕ };

    ghost view = { λ p. p.numbers };

    ghost use Rattle.pkt_core.specs.Packet.{IsPacket};

    ghost invariant = { λ p. IsPacket p.numbers };

    ghost inverse = { λ numbers. record { numbers = numbers } };
}

impl Packet {
    /// The packet of zeros.
    pub fn zero() -> Self
        ensures { result ≡ zero_packet }
    {
        Packet {
            numbers: [0; FIELD_COUNT],
        }
    }

    /// The number of a field. A packet has one for each field, and each fits its field's width.
    pub fn get(&self, field: Field) -> u128
        ensures value { result ≡ value self.now field }
        ensures fits { result < 2 ^ field_width field }
        ensures packet { IsPacket self.now }
    {
        u128::from(self.numbers[place(field)])
    }

    /// Gives a field a number, which fits its width. The other fields stay.
    pub fn set(&mut self, field: Field, number: u128)
        requires { number < 2 ^ field_width field }
        ensures set { self.new ≡ with_value self.old field number }
        ensures value { value self.new field ≡ number }
        ensures others { (other : Field) → place other ≢ place field
            → value self.new other ≡ value self.old other }
    {
        self.numbers[place(field)] = number as u64;
    }

    /// Exchanges the numbers of two fields of one width. The other fields stay.
    pub fn exchange(&mut self, one: Field, other: Field)
        requires { field_width one ≡ field_width other }
        ensures exchanged { self.new ≡ exchanged self.old one other }
        ensures one { value self.new one ≡ value self.old other }
        ensures other { value self.new other ≡ value self.old one }
        ensures rest { (field : Field) → place field ≢ place one → place field ≢ place other
            → value self.new field ≡ value self.old field }
    {
        let number = self.get(one);
        self.set(one, self.get(other));
        self.set(other, number);
    }
}

// The place of a field's number.
fn place(field: Field) -> usize
    ensures value { result ≡ place field }
    ensures within { result < field_count }
{
    field as usize
}
