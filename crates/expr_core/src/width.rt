//! Bits and masks as numbers.
ghost use Rattle.std.specs.Prelude.{◌≡◌, ◌<◌, ◌/◌, ◌%◌, ◌^◌, nat_lt};
ghost use Rattle.expr_core.specs.Width.{part_width, bits_of, is_prefix, prefix_mask, mask_of};

use crate::{Bits, Const, Form};

// 2 to the power of the number.
#[tactic(auto, using(crate::proofs::Powers::power_fits))]
fn power(count: u32) -> u128
    requires { count < 128 }
    ensures { result ≡ 2 ^ count }
{
    1 << count
}

// The number without its lowest bits, as many as this.
#[tactic(auto, using(crate::proofs::Powers::none_left))]
fn without_lowest(number: u128, count: u8) -> u128
    ensures { result ≡ number / 2 ^ count }
{
    if count < 128 { number >> count } else { 0 }
}

// The lowest bits of the number, as many as this.
#[tactic(auto, using(crate::proofs::Powers::all_left, crate::proofs::Powers::power_positive))]
fn lowest(number: u128, count: u32) -> u128
    ensures { result ≡ number % 2 ^ count }
{
    if count < 128 {
        number % power(count)
    } else {
        number
    }
}

/// Whether the number has at most so many bits: whether it is below 2 to the power of them.
#[tactic(auto, using(crate::proofs::Powers::is_below))]
pub fn has_bits(number: u128, count: u32) -> bool
    ensures { result ≡ nat_lt number (2 ^ count) }
{
    if count < 128 {
        number < power(count)
    } else {
        true
    }
}

// The bits that count for a prefix of this length: the first of 32.
#[tactic(auto, using(crate::proofs::Powers::prefix_power))]
fn prefix_mask(len: u128) -> u128
    ensures { result ≡ prefix_mask len }
{
    (1 << 32) - power(32_u128.saturating_sub(len) as u32)
}

impl Bits {
    /// How many bits a part of a field of this width has.
    pub fn count(self, width: u8) -> u32
        ensures { result ≡ part_width self width }
    {
        match self {
            Bits::Whole => u32::from(width),
            Bits::Bit(_) => 1,
            Bits::Range(first, last) => u32::from(last.saturating_sub(first)) + 1,
        }
    }

    /// The number of these bits of a field's number.
    pub fn of(self, number: u128) -> u128
        ensures { result ≡ bits_of self number }
    {
        match self {
            Bits::Whole => number,
            Bits::Bit(bit) => without_lowest(number, bit) % 2,
            Bits::Range(first, last) => {
                let count = u32::from(last.saturating_sub(first)) + 1;
                lowest(without_lowest(number, first), count)
            }
        }
    }
}

impl Const {
    /// Whether what follows `/` is the length of a prefix: a decimal after an address. All else is a mask.
    pub fn is_prefix(self, mask: Const) -> bool
        ensures { result ≡ is_prefix self mask }
    {
        matches!(self.form(), Form::Ip4) && matches!(mask.form(), Form::Dec)
    }

    /// The bits that count, where this is before `/` and a mask or the length of a prefix after it.
    pub fn mask_of(self, mask: Const) -> u128
        ensures { result ≡ mask_of self mask }
    {
        if self.is_prefix(mask) {
            prefix_mask(mask.value())
        } else {
            mask.value()
        }
    }
}
