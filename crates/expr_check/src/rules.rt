//! The type rules of matches.
ghost use Rattle.std.specs.Prelude.{◌≡◌, ◌^◌, nat_lt};
ghost use Rattle.std.specs.List.{list_all};
ghost use Rattle.expr_core.specs.Width.{part_width, is_prefix};
ghost use Rattle.expr_core.specs.TypeRules.{is_internal, is_outport, is_port, is_quote, is_of_connection, is_allowed_field, is_allowed_predicate, is_allowed, width_of, is_below, bits_fit, number_fits, mask_fits, item_fits, right_fits, is_whole, may_stand_alone, tests_equality, is_number, may_be_in_set, suits, right_suits, may_be_compared};

use crate::Role;
use expr_core::{Bits, Const, Item, Pred, Rel, Right, Subject, has_bits};
use nv_base::{Field, Prerequisite, Printed};

// Whether the field is a port's.
fn is_port(field: Field) -> bool
    ensures { result ≡ is_port field }
{
    matches!(field.printed(), Printed::PortName)
}

fn is_outport(field: Field) -> bool
    ensures { result ≡ is_outport field }
{
    matches!(field, Field::Outport)
}

// Whether a packet has the field on its way alone.
fn is_internal(field: Field) -> bool
    ensures { result ≡ is_internal field }
{
    !field.is_header() && !is_port(field)
}

fn is_quote(field: Field) -> bool
    ensures { result ≡ is_quote field }
{
    matches!(field.prerequisite(), Prerequisite::IcmpError)
}

fn is_of_connection(predicate: Pred) -> bool
    ensures { result ≡ is_of_connection predicate }
{
    matches!(
        predicate,
        Pred::CtNew | Pred::CtEst | Pred::CtRel | Pred::CtRpl | Pred::CtInv | Pred::CtTrk
    )
}

fn is_allowed_field(role: Role, field: Field) -> bool
    ensures { result ≡ is_allowed_field role field }
{
    match role {
        Role::Row => true,
        Role::AclFrom => !is_internal(field) && !is_outport(field) && !is_quote(field),
        Role::AclTo => !is_internal(field) && !is_quote(field),
        Role::Micro => !is_internal(field) && !is_outport(field),
    }
}

fn is_allowed_predicate(role: Role, predicate: Pred) -> bool
    ensures { result ≡ is_allowed_predicate role predicate }
{
    match role {
        Role::Row => true,
        Role::AclFrom | Role::AclTo | Role::Micro => !is_of_connection(predicate),
    }
}

/// Whether a match in this role may ask for it.
pub(crate) fn is_allowed(role: Role, subject: Subject) -> bool
    ensures { result ≡ is_allowed role subject }
{
    match subject {
        Subject::Field(field) => is_allowed_field(role, field),
        Subject::Pred(predicate) => is_allowed_predicate(role, predicate),
    }
}

/// How many bits it has. A predicate has none.
pub(crate) fn width_of(subject: Subject) -> Option<u8>
    ensures { result ≡ width_of subject }
{
    match subject {
        Subject::Field(field) => Some(field.width()),
        Subject::Pred(_) => None,
    }
}

// Whether a bit of this number is below the width.
fn is_below(width: Option<u8>, bit: u8) -> bool
    ensures { result ≡ is_below width bit }
{
    match width {
        None => true,
        Some(width) => bit < width,
    }
}

/// Whether the bits are bits of a field of this width.
pub(crate) fn bits_fit(width: Option<u8>, bits: Bits) -> bool
    ensures { result ≡ bits_fit width bits }
{
    match bits {
        Bits::Whole => true,
        Bits::Bit(bit) => is_below(width, bit),
        Bits::Range(first, last) => first <= last && is_below(width, last),
    }
}

// Whether the number fits the part, where its field has a width.
fn number_fits(width: Option<u8>, bits: Bits, number: u128) -> bool
    ensures { result ≡ number_fits width bits number }
{
    match width {
        None => true,
        Some(width) => has_bits(number, bits.count(width)),
    }
}

fn mask_fits(width: Option<u8>, bits: Bits, base: Const, mask: Const) -> bool
    ensures { result ≡ mask_fits width bits base mask }
{
    if base.is_prefix(mask) {
        mask.value() <= 32
    } else {
        number_fits(width, bits, mask.value())
    }
}

fn item_fits(width: Option<u8>, bits: Bits, item: &Item) -> bool
    ensures { result ≡ item_fits width bits item.now }
{
    match item {
        Item::One(constant) => number_fits(width, bits, constant.value()),
        Item::Masked(base, mask) => {
            number_fits(width, bits, base.value()) && mask_fits(width, bits, *base, *mask)
        }
        Item::Text(_) | Item::AddrSet(_) | Item::Group(_) => true,
    }
}

fn items_fit(width: Option<u8>, bits: Bits, items: &[Item]) -> bool
    ensures { result ≡ list_all (item_fits width bits) items.now }
{
    items.iter().all(|item| item_fits(width, bits, item))
}

/// Whether its numbers, masks and prefixes fit a part of these bits.
pub(crate) fn right_fits(width: Option<u8>, bits: Bits, right: &Right) -> bool
    ensures { result ≡ right_fits width bits right.now }
{
    match right {
        Right::Item(item) => item_fits(width, bits, item),
        Right::Set(items) => items_fit(width, bits, items.as_slice()),
    }
}

fn is_whole(bits: Bits) -> bool
    ensures { result ≡ is_whole bits }
{
    matches!(bits, Bits::Whole)
}

/// Whether the part may be alone.
pub(crate) fn may_stand_alone(subject: Subject, bits: Bits) -> bool
    ensures { result ≡ may_stand_alone subject bits }
{
    match subject {
        Subject::Field(field) => !is_port(field) && bits.count(field.width()) == 1,
        Subject::Pred(_) => is_whole(bits),
    }
}

fn tests_equality(rel: Rel) -> bool
    ensures { result ≡ tests_equality rel }
{
    matches!(rel, Rel::Eq | Rel::Ne)
}

// Whether it is one number without a mask.
fn is_number(right: &Right) -> bool
    ensures { result ≡ is_number right.now }
{
    matches!(right, Right::Item(Item::One(_)))
}

// Whether an address set may have values for the part.
fn may_be_in_set(field: Field, bits: Bits) -> bool
    ensures { result ≡ may_be_in_set field bits }
{
    let width = field.width();
    is_whole(bits) && (width == 32 || width == 48)
}

fn suits(field: Field, bits: Bits, item: &Item) -> bool
    ensures { result ≡ suits field bits item.now }
{
    match item {
        Item::One(_) | Item::Masked(..) => !is_port(field),
        Item::Text(_) | Item::Group(_) => is_port(field),
        Item::AddrSet(_) => !is_port(field) && may_be_in_set(field, bits),
    }
}

fn items_suit(field: Field, bits: Bits, items: &[Item]) -> bool
    ensures { result ≡ list_all (suits field bits) items.now }
{
    items.iter().all(|item| suits(field, bits, item))
}

fn right_suits(field: Field, bits: Bits, right: &Right) -> bool
    ensures { result ≡ right_suits field bits right.now }
{
    match right {
        Right::Item(item) => suits(field, bits, item),
        Right::Set(items) => items_suit(field, bits, items.as_slice()),
    }
}

/// Whether the part may be compared so.
pub(crate) fn may_be_compared(subject: Subject, bits: Bits, rel: Rel, right: &Right) -> bool
    ensures { result ≡ may_be_compared subject bits rel right.now }
{
    match subject {
        Subject::Field(field) => {
            (!is_port(field) || is_whole(bits))
                && (tests_equality(rel) || is_number(right))
                && right_suits(field, bits, right)
        }
        Subject::Pred(_) => false,
    }
}
