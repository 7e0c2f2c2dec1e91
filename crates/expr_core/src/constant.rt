ghost use Rattle.std.specs.Prelude.{◌≡◌, ◌<◌, ◌^◌};
ghost use Rattle.expr_core.specs.Constant.{constant};

use std::marker::Model;

/// How a constant is spelled.
#[derive(Clone, Copy, PartialEq, Eq)]
pub enum Form {
    /// In decimal.
    Dec,
    /// In hexadecimal, after `0x`.
    Hex,
    /// As a MAC.
    Mac,
    /// As an IPv4 address.
    Ip4,
}

/// A number below 2^128, and how a match spells it. The number is kept as two halves of 64 bits, which take less memory
/// than one of 128 in all that holds a constant.
#[derive(Clone, Copy, PartialEq, Eq)]
pub struct Const {
    form: Form,
    high: u64,
    low: u64,
}

impl Model for Const {
    ghost use Rattle.std.specs.Prelude.{◌+◌, ◌*◌, ◌/◌, ◌%◌, ◌^◌, ◌<◌};
    ghost use Rattle.expr_core.specs.Constant.{Constant};
    ghost use Rattle.expr_core.specs.inner.Halves.{halves_back};

    ghost Value = { Constant };

    ghost view = { λ c. record { form = c.form; value = c.high * 2 ^ 64 + c.low } };

    ghost invariant = { λ c. c.low < 2 ^ 64 };

    ghost inverse = { λ c. record { form = c.form; high = c.value / 2 ^ 64; low = c.value % 2 ^ 64 } };

    ghost inverse_ok = { λ c h i. record { form = c.form; high = (halves_back c.high c.low h).0 i; low = (halves_back c.high c.low h).1 i } };
}

impl Const {
    /// The constant of this number, in this form.
    pub fn new(form: Form, value: u128) -> Self
        ensures { result ≡ constant form value }
    {
        Const {
            form,
            high: (value >> 64) as u64,
            low: (value % (1 << 64)) as u64,
        }
    }

    /// How it is spelled.
    pub fn form(self) -> Form
        ensures { result ≡ self.form }
    {
        self.form
    }

    /// The number.
    pub fn value(self) -> u128
        ensures value { result ≡ self.value }
        ensures fits { self.value < 2 ^ 128 }
    {
        u128::from(self.high) * (1 << 64) + u128::from(self.low)
    }
}
