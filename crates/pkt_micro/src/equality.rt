ghost use Rattle.std.specs.Prelude.{◌≡◌};
ghost use Rattle.pkt_micro.specs.Microflow.{is_of, same_value, number_of};

use nv_base::{Field, Name};

/// What a field is equal to.
#[derive(Drop)]
pub(crate) enum Value {
    /// A number.
    Number(u128),
    /// The number of the port of this name.
    Port(Name),
}

/// A field and its value, as a microflow says it.
#[derive(Drop)]
pub(crate) struct Equality {
    /// The field.
    pub(crate) field: Field,
    /// Its value.
    pub(crate) value: Value,
}

impl Value {
    /// Whether the other value is the same. No number is that of a name.
    pub(crate) fn is_same(&self, other: &Value) -> bool
        ensures { result ≡ same_value self.now other.now }
    {
        match (self, other) {
            (Value::Number(one), Value::Number(other)) => one == other,
            (Value::Port(one), Value::Port(other)) => one == other,
            _ => false,
        }
    }

    /// The number in the packet: zero for a port, which is not looked up here.
    pub(crate) fn number(&self) -> u128
        ensures { result ≡ number_of self.now }
    {
        match self {
            Value::Number(number) => *number,
            Value::Port(_) => 0,
        }
    }
}

impl Equality {
    /// Whether it is of this field.
    pub(crate) fn is_of(&self, field: Field) -> bool
        ensures { result ≡ is_of field self.now }
    {
        self.field.number() == field.number()
    }
}
