// Rows as plain data, and the rows that are made of them.
ghost use Rattle.std.specs.Prelude.{◌≡◌, ◌<◌, ◌^◌, None, false, refl};
ghost use Rattle.nv_base.specs.declared.field.Field.TheVariants.{EthDst};
ghost use Rattle.expr_core.specs.Formula.Formula.{Leaf};
ghost use Rattle.expr_core.specs.declared.part.Bits.TheVariants.{Whole};
ghost use Rattle.expr_core.specs.declared.constant.Form.TheVariants as form;
ghost use Rattle.expr_core.specs.declared.comparison.Rel.TheVariants.{Eq, Ne};
ghost use Rattle.expr_core.specs.declared.comparison.Right.TheVariants.{Set};
ghost use Rattle.expr_core.specs.declared.typed.TypedAtom.TheVariants.{Compare};
ghost use Rattle.expr_core.specs.WellTyped.{IsTyped};
ghost use Rattle.expr_core.specs.declared.role.Role.TheVariants as role;
ghost use Rattle.sb_rows.specs.Row.{HasTypedMatch};

use crate::fixture::name;
use act_core::{Action, Step};
use expr_core::{Bits, Const, Env, Form, Item, Pred, Rel, Right, Typed, TypedAtom};
use expr_ports::PortNames;
use nv_base::{Field, Items, Name, ObjId};
use sb_model::{
    Row, Stage, bit, both, equals, is_none_of, is_one_of, is_port, one_step, predicate, takes_each,
};
use sb_rows::Rows;
use std::alloc::Global;
use std::process::Abort;

// A network without ports, sets and groups.
pub(crate) struct Empty;

impl Env for Empty {
    ghost lookup = { λ _. record { port = λ _. None; in_set = λ _ _ _. false; in_group = λ _ _. false; is_switch = λ _. false } };

    fn port(&self, _name: &Name) -> Option<ObjId> {
        None
    }

    fn in_set(&self, _name: &[u8], _width: u8, _value: u128) -> bool {
        false
    }

    fn in_group(&self, _name: &[u8], _port: ObjId) -> bool {
        false
    }

    fn is_switch(&self, _dp: ObjId) -> bool {
        false
    }

    ghost multicast_is_no_port = { λ _. (refl, refl) };
}

impl PortNames for Empty {
    fn port_names(&self, _port: ObjId) -> (Option<&Name>, Option<&Name>) {
        (None, None)
    }
}

// The packets that a row takes.
#[derive(Clone, Copy, PartialEq, Eq)]
pub(crate) enum Takes {
    Each,
    ToMulticast,
    FromMulticast,
    // Those to the MAC 0a:00:00:00:00:xx, of this last byte.
    To(u8),
    // Those to the MAC of this number.
    ToMac(u64),
    // Those that came in by the port `vm-1`.
    FromPort,
    // Those from 00:00:00:00:00:01 with this pair of further MACs, of pairs for which rows are looked for in one place.
    WithPair(u16),
    // Those to 0a:00:00:00:00:01 or 0a:00:00:00:00:03.
    ToOneOf,
    // Those to other MACs than these two.
    ToNoneOf,
    // Those to the MACs that agree with 0a:00:00:00:00:04 in the bits of ff:00:00:00:00:05.
    ToHoles,
}

// What a row does.
#[derive(Clone, Copy, PartialEq, Eq)]
pub(crate) enum Does {
    Next,
    Drop,
    Output,
    // Out by the port or the group of this name.
    OutBy(&'static str),
}

// A row as plain data: its datapath, stage, priority and hint, the packets that it takes, and what it does.
#[derive(Clone, Copy, PartialEq, Eq)]
pub(crate) struct Plain(
    pub(crate) u32,
    pub(crate) Stage,
    pub(crate) u16,
    pub(crate) u32,
    pub(crate) Takes,
    pub(crate) Does,
);

// The match of the packets to a MAC.
fn is_to(mac: u64) -> Typed
    requires { mac < 2 ^ 48 }
    ensures { IsTyped role.Row result }
{
    let constant = Const::new(Form::Mac, u128::from(mac));
    equals(Field::EthDst, constant)
}

// A MAC as a number of a match.
fn mac(value: u128) -> Const
    ensures { result ≡ record { form = form.Mac; value = value } }
{
    Const::new(Form::Mac, value)
}

// A pair of MACs. By the multiplier that `Rows` mixes numbers by, all of these pairs are mixed to the same.
pub(crate) fn pair(at: u16) -> (u64, u64)
    ensures first { result.0 < 2 ^ 48 }
    ensures second { result.1 < 2 ^ 48 }
{
    let at = u64::from(at);
    (at * 2_971_215_073, at * 50_920_843)
}

// The match of the packets with a pair: to its first MAC, of an ARP sender of its second.
fn is_with_pair(at: u16, alloc: Global, rt: &impl Abort) -> Typed
    ensures { IsTyped role.Row result }
{
    let (to, sender) = pair(at);
    let from = equals(Field::EthSrc, mac(1));
    let sender = equals(Field::ArpSha, mac(u128::from(sender)));
    let rest = both(alloc, is_to(to), sender).expect(rt, "memory");
    both(alloc, from, rest).expect(rt, "memory")
}

// The MACs of which `ToOneOf` and `ToNoneOf` speak.
fn two_macs(alloc: Global, rt: &impl Abort) -> Items<Item>
    ensures { IsTyped role.Row (Leaf (Compare EthDst Whole Eq (Set result))) × IsTyped role.Row (Leaf (Compare EthDst Whole Ne (Set result))) }
{
    let first = Item::One(mac(0x0a00_0000_0001));
    let second = Item::One(mac(0x0a00_0000_0003));
    Items::from_items(vec![in alloc; first, second].expect(rt, "memory"))
}

// The match of the packets to a MAC of a mask with holes.
fn is_to_holes() -> Typed
    ensures { IsTyped role.Row result }
{
    let item = Item::Masked(mac(0x0a00_0000_0004), mac(0xff00_0000_0005));
    Typed::atom(TypedAtom::Compare(Field::EthDst, Bits::Whole, Rel::Eq, Right::Item(item)))
}

fn match_of(takes: Takes, alloc: Global, rt: &impl Abort) -> Typed
    ensures { IsTyped role.Row result }
{
    match takes {
        Takes::Each => takes_each(),
        Takes::ToMulticast => predicate(Pred::EthMcast),
        Takes::FromMulticast => bit(Field::EthSrc, 40),
        Takes::To(last) => is_to(0x0a00_0000_0000 + u64::from(last)),
        Takes::ToMac(mac) => is_to(mac % (1 << 48)),
        Takes::FromPort => is_port(Field::Inport, name("vm-1", alloc, rt)),
        Takes::WithPair(at) => is_with_pair(at, alloc, rt),
        Takes::ToOneOf => is_one_of(Field::EthDst, two_macs(alloc, rt)),
        Takes::ToNoneOf => is_none_of(Field::EthDst, two_macs(alloc, rt)),
        Takes::ToHoles => is_to_holes(),
    }
}

fn actions_of(does: Does, alloc: Global, rt: &impl Abort) -> Items<Action> {
    let first = match does {
        Does::Next => Step::Next,
        Does::Drop => Step::Drop,
        Does::Output => Step::Output,
        Does::OutBy(port) => Step::SetOutport(name(port, alloc, rt)),
    };
    let mut actions = one_step(alloc, first).expect(rt, "memory");
    if let Does::OutBy(_) = does {
        actions
            .push(Action::Step(Step::Output))
            .expect(rt, "memory");
    }
    actions
}

pub(crate) fn row_of(plain: Plain, alloc: Global, rt: &impl Abort) -> Row
    ensures { HasTypedMatch result }
{
    let Plain(dp, stage, priority, hint, takes, does) = plain;
    Row {
        dp: ObjId(dp),
        stage,
        priority,
        hint: ObjId(hint),
        matching: match_of(takes, alloc, rt),
        actions: actions_of(does, alloc, rt),
    }
}

// Puts a row that is made of this, where none is there that is equal.
pub(crate) fn put_new(rows: &mut Rows, plain: Plain, alloc: Global, rt: &impl Abort) {
    let row = row_of(plain, alloc, rt);
    if !rows.contains(&row) {
        rows.put(row).expect(rt, "memory");
    }
}

// The rows that are made of these, put one after the other.
pub(crate) fn rows_of(table: &[Plain], alloc: Global, rt: &impl Abort) -> Rows {
    let mut rows = Rows::new(alloc);
    for plain in table {
        put_new(&mut rows, *plain, alloc, rt);
    }
    rows
}
