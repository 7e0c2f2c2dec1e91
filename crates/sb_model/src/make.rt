//! The matches and actions that rows are made of.
ghost use Rattle.std.specs.Prelude.{◌≡◌, [], ◌∷◌, IfOk};
ghost use Rattle.sb_model.specs.Make.{
  takes_each,
  bit,
  is_predicate,
  compares,
  equals,
  is_port,
  in_decimal,
  in_hexadecimal,
  as_mac,
  as_ip4,
  is_one_of,
  differs,
  is_none_of,
  bit_is_set,
  all_of,
  one_of,
  goes_out_by,
};

use act_core::{Action, Step};
use expr_core::{Bits, Const, Form, Item, Pred, Rel, Right, Typed, TypedAtom};
use nv_base::{Field, Ip4, Items, Mac, Name, OutOfMemory};
use std::alloc::Global;

/// The match `1`, which takes each packet. It takes no memory, nor do the other matches here.
pub fn takes_each() -> Typed
    ensures { result ≡ takes_each }
{
    Typed::atom(TypedAtom::Truth(true))
}

/// The match `f[n]`: this bit of the field is 1.
pub fn bit(field: Field, number: u8) -> Typed
    ensures { result ≡ bit field number }
{
    Typed::atom(TypedAtom::Bare(field, Bits::Bit(number)))
}

/// The match that is a predicate.
pub fn predicate(predicate: Pred) -> Typed
    ensures { result ≡ is_predicate predicate }
{
    Typed::atom(TypedAtom::Holds(predicate))
}

/// The match `f == constant`.
pub fn equals(field: Field, constant: Const) -> Typed
    ensures { result ≡ equals field constant }
{
    compares(field, Item::One(constant))
}

/// The match `f == "name"`: the field is the number of the port of this name.
pub fn is_port(field: Field, name: Name) -> Typed
    ensures { result ≡ is_port field name }
{
    compares(field, Item::Text(name))
}

// The match that compares a whole field for equality.
fn compares(field: Field, item: Item) -> Typed
    ensures { result ≡ compares field item }
{
    Typed::atom(TypedAtom::Compare(field, Bits::Whole, Rel::Eq, Right::Item(item)))
}

/// The list of one action, which has no block (ovn-sb(5), 'Logical_Flow TABLE', actions). Where memory runs out the
/// answer is `OutOfMemory`.
#[inline]
pub fn one_step(alloc: Global, step: Step) -> Result<Items<Action>, OutOfMemory>
    ensures { IfOk result (λ actions. actions ≡ Action.Step step ∷ []) }
{
    Ok(Items::from_items(vec![in alloc; Action::Step(step)]?))
}

/// A number as a constant of a match or an action, in decimal.
pub fn in_decimal(value: u128) -> Const
    ensures { result ≡ in_decimal value }
{
    Const::new(Form::Dec, value)
}

/// A number as a constant, in hexadecimal.
pub fn in_hexadecimal(value: u128) -> Const
    ensures { result ≡ in_hexadecimal value }
{
    Const::new(Form::Hex, value)
}

/// A MAC as a constant.
pub fn as_mac(mac: Mac) -> Const
    ensures { result ≡ as_mac mac }
{
    Const::new(Form::Mac, u128::from(mac.0))
}

/// An IPv4 address as a constant.
pub fn as_ip4(addr: Ip4) -> Const
    ensures { result ≡ as_ip4 addr.0 }
{
    Const::new(Form::Ip4, u128::from(addr.0))
}

/// The match `f == {a, b}`: the field equals one of the items, of which there are one or more.
pub fn is_one_of(field: Field, items: Items<Item>) -> Typed
    ensures { result ≡ is_one_of field items }
{
    Typed::atom(TypedAtom::Compare(field, Bits::Whole, Rel::Eq, Right::Set(items)))
}

/// The match `f != constant`.
pub fn differs(field: Field, constant: Const) -> Typed
    ensures { result ≡ differs field constant }
{
    Typed::atom(TypedAtom::Compare(
        field,
        Bits::Whole,
        Rel::Ne,
        Right::Item(Item::One(constant)),
    ))
}

/// The match `f != {a, b}`: the field equals none of the items, of which there are one or more.
pub fn is_none_of(field: Field, items: Items<Item>) -> Typed
    ensures { result ≡ is_none_of field items }
{
    Typed::atom(TypedAtom::Compare(field, Bits::Whole, Rel::Ne, Right::Set(items)))
}

/// The match `f[n] == 1`.
pub fn bit_is_set(field: Field, number: u8) -> Typed
    ensures { result ≡ bit_is_set field number }
{
    Typed::atom(TypedAtom::Compare(
        field,
        Bits::Bit(number),
        Rel::Eq,
        Right::Item(Item::One(in_decimal(1))),
    ))
}

/// The match `one && other`, of the packets that both take (ovn-sb(5), 'Logical_Flow TABLE', match). Where memory runs
/// out the answer is `OutOfMemory`.
pub fn both(alloc: Global, one: Typed, other: Typed) -> Result<Typed, OutOfMemory>
    ensures { IfOk result (λ t. t ≡ all_of (one ∷ other ∷ [])) }
{
    Ok(Typed::conjunction(Items::from_items(vec![in alloc; one, other]?)))
}

/// The match `one || other`, of the packets that one of the two takes (ovn-sb(5), 'Logical_Flow TABLE', match). Where
/// memory runs out the answer is `OutOfMemory`.
pub fn either(alloc: Global, one: Typed, other: Typed) -> Result<Typed, OutOfMemory>
    ensures { IfOk result (λ t. t ≡ one_of (one ∷ other ∷ [])) }
{
    Ok(Typed::disjunction(Items::from_items(vec![in alloc; one, other]?)))
}

/// The actions `outport = "name"; output;`, which send a packet out by the port or the multicast group of this name
/// (ovn-sb(5), 'Logical_Flow TABLE', actions). Where memory runs out the answer is `OutOfMemory`.
pub fn goes_out_by(alloc: Global, name: Name) -> Result<Items<Action>, OutOfMemory>
    ensures { IfOk result (λ actions. actions ≡ goes_out_by name) }
{
    let chosen = Action::Step(Step::SetOutport(name));
    Ok(Items::from_items(vec![in alloc; chosen, Action::Step(Step::Output)]?))
}
