ghost use Rattle.std.specs.Prelude.{◌≡◌, length, fold};
ghost use Rattle.expr_core.specs.Formula.{formulas};
ghost use Rattle.expr_digest.specs.Digest.{
  number_fed,
  text_fed,
  form_number,
  constant_fed,
  bits_fed,
  item_fed,
  rel_number,
  right_fed,
  predicate_number,
  part_fed,
  atom_fed,
  match_fed,
  matches_fed,
  digest,
};

use expr_core::{Bits, Const, Form, Item, Node, Pred, Rel, Right, Typed, TypedAtom};
use nv_base::Field;
use std::hash::{DefaultHasher, Hasher};

// A number more.
fn feed_number(state: &mut DefaultHasher, number: u64)
    ensures { state.new ≡ number_fed state.old number }
{
    state.write_u64(number);
}

// A text more, after its length.
fn feed_text(state: &mut DefaultHasher, text: &[u8])
    ensures { state.new ≡ text_fed state.old text.now }
{
    feed_number(state, text.len() as u64);
    state.write(text);
}

fn form_number(form: Form) -> u64
    ensures { result ≡ form_number form }
{
    form as u64
}

fn rel_number(rel: Rel) -> u64
    ensures { result ≡ rel_number rel }
{
    rel as u64
}

fn predicate_number(predicate: Pred) -> u64
    ensures { result ≡ predicate_number predicate }
{
    predicate as u64
}

fn feed_constant(state: &mut DefaultHasher, constant: Const)
    ensures { state.new ≡ constant_fed state.old constant }
{
    feed_number(state, form_number(constant.form()));
    state.write_u128(constant.value());
}

fn feed_bits(state: &mut DefaultHasher, bits: Bits)
    ensures { state.new ≡ bits_fed state.old bits }
{
    match bits {
        Bits::Whole => feed_number(state, 0),
        Bits::Bit(bit) => {
            feed_number(state, 1);
            feed_number(state, u64::from(bit));
        }
        Bits::Range(first, last) => {
            feed_number(state, 2);
            feed_number(state, u64::from(first));
            feed_number(state, u64::from(last));
        }
    }
}

fn feed_item(state: &mut DefaultHasher, item: &Item)
    ensures { state.new ≡ item_fed state.old item.now }
{
    match item {
        Item::One(constant) => {
            feed_number(state, 0);
            feed_constant(state, *constant);
        }
        Item::Masked(constant, mask) => {
            feed_number(state, 1);
            feed_constant(state, *constant);
            feed_constant(state, *mask);
        }
        Item::Text(name) => {
            feed_number(state, 2);
            feed_text(state, name.as_slice());
        }
        Item::AddrSet(name) => {
            feed_number(state, 3);
            feed_text(state, name.as_slice());
        }
        Item::Group(name) => {
            feed_number(state, 4);
            feed_text(state, name.as_slice());
        }
    }
}

fn feed_items(state: &mut DefaultHasher, items: &[Item])
    ensures { state.new ≡ fold item_fed state.old items.now }
{
    for item in items {
        feed_item(state, item);
    }
}

fn feed_right(state: &mut DefaultHasher, right: &Right)
    ensures { state.new ≡ right_fed state.old right.now }
{
    match right {
        Right::Item(item) => {
            feed_number(state, 0);
            feed_item(state, item);
        }
        Right::Set(items) => {
            let items = items.as_slice();
            feed_number(state, 1);
            feed_number(state, items.len() as u64);
            feed_items(state, items);
        }
    }
}

fn feed_part(state: &mut DefaultHasher, kind: u64, field: Field, bits: Bits)
    ensures { state.new ≡ part_fed state.old kind field bits }
{
    feed_number(state, kind);
    feed_number(state, u64::from(field.number()));
    feed_bits(state, bits);
}

fn feed_atom(state: &mut DefaultHasher, atom: &TypedAtom)
    ensures { state.new ≡ atom_fed state.old atom.now }
{
    match atom {
        TypedAtom::Truth(holds) => {
            feed_number(state, 0);
            feed_number(state, u64::from(*holds));
        }
        TypedAtom::Bare(field, bits) => feed_part(state, 1, *field, *bits),
        TypedAtom::Holds(predicate) => {
            feed_number(state, 2);
            feed_number(state, predicate_number(*predicate));
        }
        TypedAtom::Compare(field, bits, rel, right) => {
            feed_part(state, 3, *field, *bits);
            feed_number(state, rel_number(*rel));
            feed_right(state, right);
        }
    }
}

// Operands, and that no more follow.
#[cycle(feed_match)]
fn feed_operands(state: &mut DefaultHasher, kind: u64, operands: &[Typed])
    ensures { state.new ≡ number_fed (matches_fed (number_fed state.old kind) (formulas operands.now)) 7 }
{
    feed_number(state, kind);
    for operand in operands {
        feed_match(state, operand);
    }
    feed_number(state, 7);
}

#[cycle(feed_match)]
fn feed_match(state: &mut DefaultHasher, matching: &Typed)
    ensures { state.new ≡ match_fed state.old matching.now }
{
    match &matching.node {
        Node::Atom(atom) => feed_atom(state, atom),
        Node::Not(operand) => {
            feed_number(state, 4);
            feed_match(state, operand);
        }
        Node::And(operands) => feed_operands(state, 5, operands),
        Node::Or(operands) => feed_operands(state, 6, operands),
    }
}

/// The digest of a match (not from OVN). It takes no memory.
pub fn digest_of(matching: &Typed) -> u64
    ensures { result ≡ digest matching.now }
{
    let mut state = DefaultHasher::new();
    feed_match(&mut state, matching);
    state.finish()
}
