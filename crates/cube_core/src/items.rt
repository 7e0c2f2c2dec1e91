//! The cubes of a comparison.
ghost use Rattle.std.specs.Prelude.{◌≡◌, [], ◌∷◌, true, Some, IfOk, map};
ghost use Rattle.nv_base.specs.Field.{field_width};
ghost use Rattle.expr_core.specs.Tests.{tests};
ghost use Rattle.cube_core.specs.Limit.{join_all};
ghost use Rattle.cube_core.specs.Cubes.{names_of, whole_number, port_numbers, numbers_of, masked_cubes, join_by, item_cubes, right_cubes, test_cube, prerequisite_cubes, with_field, number_cubes, turned, test_cubes};
ghost use Rattle.cube_core.specs.inner.Answers.{IsAnswer};

use crate::bits::{placed, placed_mask};
use crate::comparison::masked_cubes;
use crate::join::{join_one, joined_none};
use crate::{Cube, CubeFault};
use expr_core::{Bits, Item, Pred, Rel, Right, Test, prerequisite_tests};
use expr_sets::{Masked, SetMembers};
use nv_base::{Field, Items, ObjId, OutOfMemory};
use std::alloc::Global;

// A number all of whose bits count.
fn whole_number(number: u128) -> Masked
    ensures { result ≡ whole_number number }
{
    Masked {
        number,
        mask: u128::MAX,
    }
}

// A list of one number.
fn one_number(alloc: Global, number: Masked) -> Result<Items<Masked>, OutOfMemory>
    ensures { IfOk result (λ numbers. numbers ≡ number ∷ []) }
{
    let mut numbers = Items::new(alloc);
    numbers.push(number)?;
    Ok(numbers)
}

// The number of a port, where there is one.
fn port_numbers(alloc: Global, port: Option<ObjId>) -> Result<Items<Masked>, OutOfMemory>
    ensures { IfOk result (λ numbers. numbers ≡ port_numbers port) }
{
    match port {
        Some(port) => one_number(alloc, whole_number(u128::from(port.0))),
        None => Ok(Items::new(alloc)),
    }
}

// The numbers of ports.
fn numbers_of_ports(alloc: Global, ports: &[ObjId]) -> Result<Items<Masked>, OutOfMemory>
    ensures { IfOk result (λ numbers. numbers ≡ map (λ port. whole_number port.0) ports.now) }
{
    let mut numbers = Items::new(alloc);
    for port in ports {
        numbers.push(whole_number(u128::from(port.0)))?;
    }
    Ok(numbers)
}

// The numbers that an item of a right side stands for, in stored order.
fn numbers_of<E: SetMembers>(
    alloc: Global,
    env: &E,
    field: Field,
    item: &Item,
) -> Result<Items<Masked>, OutOfMemory>
    ensures { IfOk result (λ numbers. numbers ≡ numbers_of (names_of (E.lookup env.now) (E.members env.now)) (field_width field) item.now) }
{
    match item {
        Item::One(constant) => one_number(alloc, whole_number(constant.value())),
        Item::Masked(base, mask) => one_number(
            alloc,
            Masked {
                number: base.value(),
                mask: base.mask_of(*mask),
            },
        ),
        Item::Text(name) => port_numbers(alloc, env.port(name)),
        Item::AddrSet(name) => env.members_of_set(alloc, name.as_slice(), field.width()),
        Item::Group(name) => {
            let ports = env.ports_of_group(alloc, name.as_slice())?;
            numbers_of_ports(alloc, ports.as_slice())
        }
    }
}

// The conjunction or the disjunction of the comparisons of a part with several numbers.
fn joined_numbers(
    alloc: Global,
    is_and: bool,
    field: Field,
    bits: Bits,
    rel: Rel,
    numbers: &[Masked],
) -> Result<Items<Cube>, CubeFault>
    ensures { IsAnswer (join_all is_and (map (λ m. Some (masked_cubes field bits rel m)) numbers.now)) result }
{
    let mut sofar = joined_none(alloc, is_and)?;
    for number in numbers {
        let cubes = masked_cubes(alloc, field, bits, rel, *number)?;
        sofar = join_one(alloc, is_and, sofar, cubes.as_slice())?;
    }
    Ok(sofar)
}

// The cubes of a comparison of a part with several numbers.
fn numbers_cubes(
    alloc: Global,
    field: Field,
    bits: Bits,
    rel: Rel,
    numbers: &[Masked],
) -> Result<Items<Cube>, CubeFault>
    ensures { IsAnswer (join_by rel (map (λ m. Some (masked_cubes field bits rel m)) numbers.now)) result }
{
    match rel {
        Rel::Eq => joined_numbers(alloc, false, field, bits, rel, numbers),
        Rel::Ne => joined_numbers(alloc, true, field, bits, rel, numbers),
        Rel::Lt | Rel::Le | Rel::Gt | Rel::Ge => Ok(Items::new(alloc)),
    }
}

// The cubes of a comparison of a part with an item.
fn item_cubes<E: SetMembers>(
    alloc: Global,
    env: &E,
    field: Field,
    bits: Bits,
    rel: Rel,
    item: &Item,
) -> Result<Items<Cube>, CubeFault>
    ensures { IsAnswer (item_cubes (names_of (E.lookup env.now) (E.members env.now)) field bits rel item.now) result }
{
    match item {
        Item::One(constant) => {
            let number = whole_number(constant.value());
            Ok(masked_cubes(alloc, field, bits, rel, number)?)
        }
        _ => {
            let numbers = numbers_of(alloc, env, field, item)?;
            numbers_cubes(alloc, field, bits, rel, numbers.as_slice())
        }
    }
}

// The conjunction or the disjunction of the comparisons of a part with several items.
fn joined_items<E: SetMembers>(
    alloc: Global,
    env: &E,
    is_and: bool,
    field: Field,
    bits: Bits,
    rel: Rel,
    items: &[Item],
) -> Result<Items<Cube>, CubeFault>
    ensures { IsAnswer (join_all is_and (map (item_cubes (names_of (E.lookup env.now) (E.members env.now)) field bits rel) items.now)) result }
{
    let mut sofar = joined_none(alloc, is_and)?;
    for item in items {
        let cubes = item_cubes(alloc, env, field, bits, rel, item)?;
        sofar = join_one(alloc, is_and, sofar, cubes.as_slice())?;
    }
    Ok(sofar)
}

// The cubes of a comparison of a part with several items.
fn items_cubes<E: SetMembers>(
    alloc: Global,
    env: &E,
    field: Field,
    bits: Bits,
    rel: Rel,
    items: &[Item],
) -> Result<Items<Cube>, CubeFault>
    ensures { IsAnswer (join_by rel (map (item_cubes (names_of (E.lookup env.now) (E.members env.now)) field bits rel) items.now)) result }
{
    match rel {
        Rel::Eq => joined_items(alloc, env, false, field, bits, rel, items),
        Rel::Ne => joined_items(alloc, env, true, field, bits, rel, items),
        Rel::Lt | Rel::Le | Rel::Gt | Rel::Ge => Ok(Items::new(alloc)),
    }
}

// The cubes of a comparison of a part with a right side.
fn right_cubes<E: SetMembers>(
    alloc: Global,
    env: &E,
    field: Field,
    bits: Bits,
    rel: Rel,
    right: &Right,
) -> Result<Items<Cube>, CubeFault>
    ensures { IsAnswer (right_cubes (names_of (E.lookup env.now) (E.members env.now)) field bits rel right.now) result }
{
    match right {
        Right::Item(item) => item_cubes(alloc, env, field, bits, rel, item),
        Right::Set(items) => items_cubes(alloc, env, field, bits, rel, items.as_slice()),
    }
}

// The packets that pass a test.
fn test_cube(test: &Test) -> Cube
    ensures { result ≡ test_cube test.now }
{
    Cube::of_field(
        test.field,
        placed_mask(test.field, test.bits, u128::MAX),
        placed(test.field, test.bits, test.number),
    )
}

// The packets that pass one of several tests.
fn alternatives_cubes(alloc: Global, tests: &[Test]) -> Result<Items<Cube>, OutOfMemory>
    ensures { IfOk result (λ cubes. cubes ≡ map test_cube tests.now) }
{
    let mut cubes = Items::new(alloc);
    for test in tests {
        cubes.push(test_cube(test))?;
    }
    Ok(cubes)
}

// The packets that have a field.
fn prerequisite_cubes(alloc: Global, field: Field) -> Result<Items<Cube>, CubeFault>
    ensures { IsAnswer (join_all true (prerequisite_cubes field)) result }
{
    let mut sofar = joined_none(alloc, true)?;
    for tests in prerequisite_tests(field.prerequisite()) {
        let cubes = alternatives_cubes(alloc, tests)?;
        sofar = join_one(alloc, true, sofar, cubes.as_slice())?;
    }
    Ok(sofar)
}

// The packets that have a field, and of which the list is.
#[tactic(auto, using(crate::proofs::Joined::join_last))]
fn with_field(alloc: Global, field: Field, cubes: &[Cube]) -> Result<Items<Cube>, CubeFault>
    ensures { IsAnswer (with_field field (Some cubes.now)) result }
{
    let sofar = prerequisite_cubes(alloc, field)?;
    join_one(alloc, true, sofar, cubes)
}

/// The packets that have a field, a part of which is in the relation to a number.
pub(crate) fn number_cubes(
    alloc: Global,
    field: Field,
    bits: Bits,
    rel: Rel,
    number: u128,
) -> Result<Items<Cube>, CubeFault>
    ensures { IsAnswer (number_cubes field bits rel number) result }
{
    let cubes = masked_cubes(alloc, field, bits, rel, whole_number(number))?;
    with_field(alloc, field, cubes.as_slice())
}

/// The cubes of a comparison of a part that needs its field.
pub(crate) fn compared_cubes<E: SetMembers>(
    alloc: Global,
    env: &E,
    field: Field,
    bits: Bits,
    rel: Rel,
    right: &Right,
) -> Result<Items<Cube>, CubeFault>
    ensures { IsAnswer (with_field field (right_cubes (names_of (E.lookup env.now) (E.members env.now)) field bits rel right.now)) result }
{
    let cubes = right_cubes(alloc, env, field, bits, rel, right)?;
    with_field(alloc, field, cubes.as_slice())
}

/// The relation, or under a negation its opposite.
pub(crate) fn turned(negated: bool, rel: Rel) -> Rel
    ensures { result ≡ turned negated rel }
{
    if negated { rel.opposite() } else { rel }
}

// The cubes of a test of a predicate, or of its negation.
fn test_cubes(alloc: Global, negated: bool, test: &Test) -> Result<Items<Cube>, CubeFault>
    ensures { IsAnswer (test_cubes negated test.now) result }
{
    let rel = turned(negated, Rel::Eq);
    number_cubes(alloc, test.field, test.bits, rel, test.number)
}

/// The cubes of a predicate, or of its negation.
pub(crate) fn predicate_cubes(
    alloc: Global,
    negated: bool,
    predicate: Pred,
) -> Result<Items<Cube>, CubeFault>
    ensures { IsAnswer (join_all negated (map (test_cubes negated) (tests predicate))) result }
{
    let mut sofar = joined_none(alloc, negated)?;
    for test in predicate.tests() {
        let cubes = test_cubes(alloc, negated, test)?;
        sofar = join_one(alloc, negated, sofar, cubes.as_slice())?;
    }
    Ok(sofar)
}
