ghost use Rattle.std.specs.Prelude.{◌≡◌, ◌==◌, bit_and};
ghost use Rattle.expr_core.specs.Width.{mask_of};
ghost use Rattle.std.specs.List.{list_any};
ghost use Rattle.nv_base.specs.Field.{field_width};
ghost use Rattle.expr_eval.specs.Relation.{is_of_port, equals_item, equals, compares, relates};

use expr_core::{Const, Env, Item, Rel, Right};
use nv_base::{Field, Name, ObjId};

fn equals_masked(number: u128, base: Const, mask: Const) -> bool
    ensures { result ≡ (bit_and number (mask_of base mask) == bit_and base.value (mask_of base mask)) }
{
    let counted = base.mask_of(mask);
    number & counted == base.value() & counted
}

// Whether it is the number of the port of this name.
fn is_of_port<E: Env>(env: &E, number: u128, name: &Name) -> bool
    ensures { result ≡ is_of_port number ((E.lookup env.now).port name.now) }
{
    match env.port(name) {
        Some(port) => number == u128::from(port.0),
        None => false,
    }
}

fn equals_item<E: Env>(env: &E, field: Field, number: u128, item: &Item) -> bool
    ensures { result ≡ equals_item (E.lookup env.now) (field_width field) number item.now }
{
    match item {
        Item::One(constant) => number == constant.value(),
        Item::Masked(base, mask) => equals_masked(number, *base, *mask),
        Item::Text(name) => is_of_port(env, number, name),
        Item::AddrSet(name) => env.in_set(name.as_slice(), field.width(), number),
        Item::Group(name) => env.in_group(name.as_slice(), ObjId((number % (1 << 32)) as u32)),
    }
}

fn equals_one<E: Env>(env: &E, field: Field, number: u128, items: &[Item]) -> bool
    ensures { result ≡ list_any (equals_item (E.lookup env.now) (field_width field) number) items.now }
{
    items
        .iter()
        .any(|item| equals_item(env, field, number, item))
}

fn equals<E: Env>(env: &E, field: Field, number: u128, right: &Right) -> bool
    ensures { result ≡ equals (E.lookup env.now) (field_width field) number right.now }
{
    match right {
        Right::Item(item) => equals_item(env, field, number, item),
        Right::Set(items) => equals_one(env, field, number, items.as_slice()),
    }
}

/// Whether the number is in the relation to another.
#[inline(always)]
pub(crate) fn compares(number: u128, rel: Rel, other: u128) -> bool
    ensures { result ≡ compares number rel other }
{
    match rel {
        Rel::Eq => number == other,
        Rel::Ne => number != other,
        Rel::Lt => number < other,
        Rel::Le => number <= other,
        Rel::Gt => number > other,
        Rel::Ge => number >= other,
    }
}

/// Whether the number, of this field, is in the relation to the right side.
pub(crate) fn relates<E: Env>(env: &E, field: Field, number: u128, rel: Rel, right: &Right) -> bool
    ensures { result ≡ relates (E.lookup env.now) (field_width field) number rel right.now }
{
    if let Right::Item(Item::One(constant)) = right {
        return compares(number, rel, constant.value());
    }
    match rel {
        Rel::Eq => equals(env, field, number, right),
        Rel::Ne => !equals(env, field, number, right),
        Rel::Lt | Rel::Le | Rel::Gt | Rel::Ge => false,
    }
}
