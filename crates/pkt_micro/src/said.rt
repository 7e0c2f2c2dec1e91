//! What a conjunction says, as a list of equalities.
ghost use Rattle.std.specs.Prelude.{◌≡◌, ◌++◌, Some, IfErr, OnOk};
ghost use Rattle.std.specs.Option.{option_map};
ghost use Rattle.expr_core.specs.Formula.{formulas};
ghost use Rattle.pkt_micro.specs.Microflow.{sole, implied, prerequisite_named, needing, said_of, said_by, said, all_said};
ghost use Rattle.pkt_micro.specs.inner.Listed.{after, IsRefused};

use crate::MicroFault;
use crate::equality::{Equality, Value};
use expr_core::{Bits, Item, Node, Pred, Rel, Right, Test, Typed, TypedAtom, prerequisite_tests};
use nv_base::{Field, Items, Kept, OutOfMemory, Prerequisite};
use std::alloc::Global;

// Puts at the end the equality that the test is, where it has no alternative.
fn put_sole(list: &mut Items<Equality>, alternatives: &[Test]) -> Result<(), OutOfMemory>
    ensures { OnOk result (list.new ≡ list.old ++ sole alternatives.now) }
{
    if let [test] = alternatives {
        list.push(Equality {
            field: test.field,
            value: Value::Number(test.number),
        })?;
    }
    Ok(())
}

// Puts at the end the equalities that a prerequisite adds.
fn put_implied(list: &mut Items<Equality>, needed: Prerequisite) -> Result<(), OutOfMemory>
    ensures { OnOk result (list.new ≡ list.old ++ implied needed) }
{
    for alternatives in prerequisite_tests(needed) {
        put_sole(list, alternatives)?;
    }
    Ok(())
}

// Puts at the end that the field has the value, and what it needs to be there.
fn put_needing(list: &mut Items<Equality>, field: Field, value: Value) -> Result<(), OutOfMemory>
    ensures { OnOk result (list.new ≡ list.old ++ needing field value) }
{
    put_implied(list, field.prerequisite())?;
    list.push(Equality { field, value })?;
    Ok(())
}

// The prerequisite that the predicate names.
fn prerequisite_named(predicate: Pred) -> Option<Prerequisite>
    ensures { result ≡ prerequisite_named predicate }
{
    match predicate {
        Pred::Ip4 => Some(Prerequisite::Ip4),
        Pred::Arp => Some(Prerequisite::Arp),
        Pred::Tcp => Some(Prerequisite::Tcp),
        Pred::Udp => Some(Prerequisite::Udp),
        Pred::Icmp4 => Some(Prerequisite::Icmp4),
        _ => None,
    }
}

fn put_predicate(list: &mut Items<Equality>, predicate: Pred) -> Result<(), MicroFault>
    ensures ok { OnOk result (after list.old (option_map implied (prerequisite_named predicate)) ≡ Some list.new) }
    ensures fault { IfErr result (λ f. IsRefused f (option_map implied (prerequisite_named predicate))) }
{
    let Some(needed) = prerequisite_named(predicate) else {
        return Err(MicroFault::NotConjunction);
    };
    put_implied(list, needed)?;
    Ok(())
}

// Puts at the end that the whole field equals the item.
fn put_equal(
    alloc: Global,
    list: &mut Items<Equality>,
    field: Field,
    item: &Item,
) -> Result<(), MicroFault>
    ensures ok { OnOk result (after list.old (said_of field item.now) ≡ Some list.new) }
    ensures fault { IfErr result (λ f. IsRefused f (said_of field item.now)) }
{
    let value = match item {
        Item::One(constant) => Value::Number(constant.value()),
        Item::Text(name) => Value::Port(name.copy(alloc)?),
        _ => return Err(MicroFault::NotConjunction),
    };
    put_needing(list, field, value)?;
    Ok(())
}

fn put_atom(alloc: Global, list: &mut Items<Equality>, atom: &TypedAtom) -> Result<(), MicroFault>
    ensures ok { OnOk result (after list.old (said_by atom.now) ≡ Some list.new) }
    ensures fault { IfErr result (λ f. IsRefused f (said_by atom.now)) }
{
    match atom {
        TypedAtom::Truth(true) => Ok(()),
        TypedAtom::Holds(predicate) => put_predicate(list, *predicate),
        TypedAtom::Compare(field, Bits::Whole, Rel::Eq, Right::Item(item)) => {
            put_equal(alloc, list, *field, item)
        }
        _ => Err(MicroFault::NotConjunction),
    }
}

#[cycle(put_said)]
fn put_all_said(
    alloc: Global,
    list: &mut Items<Equality>,
    operands: &[Typed],
) -> Result<(), MicroFault>
    ensures ok { OnOk result (after list.old (all_said (formulas operands.now)) ≡ Some list.new) }
    ensures fault { IfErr result (λ f. IsRefused f (all_said (formulas operands.now))) }
{
    for operand in operands {
        put_said(alloc, list, operand)?;
    }
    Ok(())
}

/// Puts at the end the equalities that the match says, in their order. `NotConjunction` comes exactly where it says
/// none; after an error more of them may be there.
#[cycle(put_said)]
pub(crate) fn put_said(
    alloc: Global,
    list: &mut Items<Equality>,
    typed: &Typed,
) -> Result<(), MicroFault>
    ensures ok { OnOk result (after list.old (said typed.now) ≡ Some list.new) }
    ensures fault { IfErr result (λ f. IsRefused f (said typed.now)) }
{
    match &typed.node {
        Node::Atom(atom) => put_atom(alloc, list, atom),
        Node::And(operands) => put_all_said(alloc, list, operands),
        Node::Not(_) | Node::Or(_) => Err(MicroFault::NotConjunction),
    }
}
