//! What is wrong with a list of equalities, and the packet that it makes.
ghost use Rattle.std.specs.Prelude.{◌≡◌, not, ◌&&◌, IfOk};
ghost use Rattle.std.specs.List.{find, list_any};
ghost use Rattle.std.specs.Option.{option_copied};
ghost use Rattle.nv_base.specs.Field.{all_fields};
ghost use Rattle.pkt_micro.specs.Microflow.{same_value, is_of, is_contradicted, port_said, packet_said};
ghost use Rattle.pkt_micro.specs.inner.Listed.{AllFit};
ghost use Rattle.pkt_micro.specs.declared.equality.Value.{Value};
ghost use Rattle.nv_base.specs.declared.field.Field.TheVariants.{Inport};

use crate::equality::{Equality, Value};
use nv_base::{Field, Kept, Name, OutOfMemory};
use pkt_core::Packet;
use std::alloc::Global;

// The first equality of the field.
fn first_of(equalities: &[Equality], field: Field) -> Option<&Equality>
    ensures { option_copied result ≡ find (is_of field) equalities.now }
{
    equalities.iter().find(|equality| equality.is_of(field))
}

// Whether an equality gives the field another value.
fn gives_another(equalities: &[Equality], field: Field, value: &Value) -> bool
    ensures { result ≡ list_any (λ e. is_of field e && not (same_value value.now e.value)) equalities.now }
{
    equalities.iter().any(|equality| equality.is_of(field) && !value.is_same(&equality.value))
}

// Whether the field is given two values.
fn is_contradicted(equalities: &[Equality], field: Field) -> bool
    ensures { result ≡ is_contradicted equalities.now field }
{
    match first_of(equalities, field) {
        Some(first) => gives_another(equalities, field, &first.value),
        None => false,
    }
}

/// The first field, in the order of the fields' numbers, that is given two values.
pub(crate) fn contradiction(equalities: &[Equality]) -> Option<Field>
    ensures { result ≡ find (is_contradicted equalities.now) all_fields }
{
    Field::all()
        .iter()
        .find(|field| is_contradicted(equalities, **field))
        .copied()
}

/// The name of the port that the packet comes in by, if it is said.
pub(crate) fn inport_of(alloc: Global, equalities: &[Equality]) -> Result<Option<Name>, OutOfMemory>
    ensures { IfOk result (λ port. port ≡ port_said equalities.now) }
{
    match first_of(equalities, Field::Inport) {
        Some(
            Equality {
                field: _,
                value: Value::Port(name),
            },
        ) => Ok(Some(name.copy(alloc)?)),
        _ => Ok(None),
    }
}

/// The packet with the numbers that are said, and zero elsewhere.
pub(crate) fn packet_with(equalities: &[Equality]) -> Packet
    requires { AllFit equalities.now }
    ensures { result ≡ packet_said equalities.now }
{
    let mut packet = Packet::zero();
    for equality in equalities {
        packet.set(equality.field, equality.value.number());
    }
    packet
}
