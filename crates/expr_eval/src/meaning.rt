ghost use Rattle.std.specs.Prelude.{◌≡◌, ◌&&◌};
ghost use Rattle.std.specs.List.{list_any, list_all};
ghost use Rattle.nv_base.specs.Field.{field_width};
ghost use Rattle.pkt_core.specs.Prerequisite.{is_there};
ghost use Rattle.expr_core.specs.Tests.{test, tests};
ghost use Rattle.expr_core.specs.Width.{bits_of};
ghost use Rattle.expr_eval.specs.Relation.{relates};
ghost use Rattle.expr_eval.specs.MatchMeaning.{part_of, has, has_not, holds};
ghost use Rattle.expr_eval.specs.inner.Wanted.{meant_test, meant_tests, meant_number, meant_atom, meant};

use crate::relation::{compares, relates};
use expr_core::{Bits, Env, Item, Node, Pred, Rel, Right, Test, Typed, TypedAtom};
use nv_base::Field;
use pkt_core::Packet;

// Whether the packet has the field.
#[inline(always)]
fn is_there(packet: &Packet, field: Field) -> bool
    ensures { result ≡ is_there packet.now field }
{
    packet.meets(field.prerequisite())
}

// Some bits of a field's number.
#[inline(never)]
fn some_bits(bits: Bits, number: u128) -> u128
    ensures { result ≡ bits_of bits number }
{
    bits.of(number)
}

// The number of a part. Most parts are whole fields, and then the bits are not copied.
#[inline(always)]
fn part_of(packet: &Packet, field: Field, bits: &Bits) -> u128
    ensures { result ≡ part_of packet.now field bits.now }
{
    let number = packet.get(field);
    match bits {
        Bits::Whole => number,
        _ => some_bits(*bits, number),
    }
}

// Whether the packet has the field, and the part has the number.
fn has(packet: &Packet, test: &Test) -> bool
    ensures { result ≡ has packet.now test.now }
{
    is_there(packet, test.field) && test.bits.of(packet.get(test.field)) == test.number
}

// Whether the packet has the field, and the part has another number.
fn has_not(packet: &Packet, test: &Test) -> bool
    ensures { result ≡ has_not packet.now test.now }
{
    is_there(packet, test.field) && test.bits.of(packet.get(test.field)) != test.number
}

fn has_one(packet: &Packet, tests: &[Test]) -> bool
    ensures { result ≡ list_any (has packet.now) tests.now }
{
    tests.iter().any(|test| has(packet, test))
}

fn has_none(packet: &Packet, tests: &[Test]) -> bool
    ensures { result ≡ list_all (has_not packet.now) tests.now }
{
    tests.iter().all(|test| has_not(packet, test))
}

// Whether the test holds where that is wanted, and else its negation.
#[inline(always)]
fn is_test_meant(packet: &Packet, wanted: bool, test: &Test) -> bool
    ensures { result ≡ meant_test wanted packet.now test.now }
{
    is_there(packet, test.field)
        && (part_of(packet, test.field, &test.bits) == test.number) == wanted
}

// Whether one of the tests holds where that is wanted, and else the negation of each.
#[inline(never)]
fn are_tests_meant(packet: &Packet, wanted: bool, tests: &[Test]) -> bool
    ensures { result ≡ meant_tests wanted packet.now tests.now }
{
    if wanted {
        has_one(packet, tests)
    } else {
        has_none(packet, tests)
    }
}

// Whether the predicate holds where that is wanted, and else its negation. Most are one test.
#[inline(never)]
fn is_predicate_meant(packet: &Packet, wanted: bool, predicate: Pred) -> bool
    ensures { result ≡ meant_tests wanted packet.now (tests predicate) }
{
    match predicate.tests() {
        [test] => is_test_meant(packet, wanted, test),
        tests => are_tests_meant(packet, wanted, tests),
    }
}

// Whether the bits are 1 where that is wanted, and else another number.
fn is_bit_meant(packet: &Packet, wanted: bool, field: Field, bits: Bits) -> bool
    ensures { result ≡ meant_test wanted packet.now (test field bits 1) }
{
    let test = Test {
        field,
        bits,
        number: 1,
    };
    is_test_meant(packet, wanted, &test)
}

// Whether the packet has the field, and the part is in the relation to the number where that is wanted, and else not.
#[inline(always)]
#[tactic(auto, using(crate::proofs::Opposites::opposed))]
fn is_number_meant(
    packet: &Packet,
    wanted: bool,
    field: Field,
    bits: &Bits,
    rel: Rel,
    number: u128,
) -> bool
    ensures { result ≡ meant_number wanted packet.now field bits.now rel number }
{
    is_there(packet, field) && compares(part_of(packet, field, bits), rel, number) == wanted
}

// Whether the packet has the field, and the part is in the relation to the right side.
fn is_related<E: Env>(
    env: &E,
    packet: &Packet,
    field: Field,
    bits: &Bits,
    rel: Rel,
    right: &Right,
) -> bool
    ensures { result ≡ (is_there packet.now field && relates (E.lookup env.now) (field_width field) (part_of packet.now field bits.now) rel right.now) }
{
    is_there(packet, field) && relates(env, field, part_of(packet, field, bits), rel, right)
}

// The same of an atom as `is_atom_meant` says, whatever it is.
#[inline(never)]
fn is_any_atom_meant<E: Env>(atom: &TypedAtom, packet: &Packet, env: &E, wanted: bool) -> bool
    ensures { result ≡ meant_atom wanted (E.lookup env.now) packet.now atom.now }
{
    match atom {
        TypedAtom::Truth(holds) => *holds == wanted,
        TypedAtom::Bare(field, bits) => is_bit_meant(packet, wanted, *field, *bits),
        TypedAtom::Holds(predicate) => is_predicate_meant(packet, wanted, *predicate),
        TypedAtom::Compare(field, bits, rel, right) => {
            let rel = if wanted { *rel } else { rel.opposite() };
            is_related(env, packet, *field, bits, rel, right)
        }
    }
}

// Whether the atom holds where that is wanted, and else its negation. Most atoms compare a part with one number: that
// is short, and stands in the loops over operands.
#[inline(always)]
fn is_atom_meant<E: Env>(atom: &TypedAtom, packet: &Packet, env: &E, wanted: bool) -> bool
    ensures { result ≡ meant_atom wanted (E.lookup env.now) packet.now atom.now }
{
    match atom {
        TypedAtom::Compare(field, bits, rel, Right::Item(Item::One(constant))) => {
            is_number_meant(packet, wanted, *field, bits, *rel, constant.value())
        }
        TypedAtom::Holds(predicate) => is_predicate_meant(packet, wanted, *predicate),
        _ => is_any_atom_meant(atom, packet, env, wanted),
    }
}

// The same of an operand. Most are atoms, which need no further call.
#[inline(always)]
#[cycle(meant)]
fn is_operand_meant<E: Env>(operand: &Typed, packet: &Packet, env: &E, wanted: bool) -> bool
    ensures { result ≡ meant wanted (E.lookup env.now) packet.now operand.now }
{
    match &operand.node {
        Node::Atom(atom) => is_atom_meant(atom, packet, env, wanted),
        _ => is_match_meant(operand, packet, env, wanted),
    }
}

// Whether the match holds where that is wanted, and else its negation.
#[cycle(meant)]
fn is_match_meant<E: Env>(typed: &Typed, packet: &Packet, env: &E, wanted: bool) -> bool
    ensures { result ≡ meant wanted (E.lookup env.now) packet.now typed.now }
{
    match &typed.node {
        Node::Atom(atom) => is_atom_meant(atom, packet, env, wanted),
        Node::Not(operand) => is_operand_meant(operand, packet, env, !wanted),
        Node::And(operands) => {
            for operand in operands {
                if is_operand_meant(operand, packet, env, wanted) != wanted {
                    return !wanted;
                }
            }
            wanted
        }
        Node::Or(operands) => {
            for operand in operands {
                if is_operand_meant(operand, packet, env, wanted) == wanted {
                    return wanted;
                }
            }
            !wanted
        }
    }
}

/// Whether the match holds of the packet, where names, sets and groups are what `env` says. It takes no memory.
#[inline]
pub fn holds<E: Env>(typed: &Typed, packet: &Packet, env: &E) -> bool
    ensures { result ≡ holds (E.lookup env.now) packet.now typed.now }
{
    is_operand_meant(typed, packet, env, true)
}
