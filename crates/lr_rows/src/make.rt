//! The matches and actions that rows of routers are made of.
ghost use Rattle.std.specs.Prelude.{◌≡◌, ◌∷◌, [], ◌++◌, IfOk, OnOk, OnErr};
ghost use Rattle.nb_read.specs.Readings.{cleared};
ghost use Rattle.net_rows.specs.Unit.{rule};
ghost use Rattle.sb_model.specs.Make.{steps};
ghost use Rattle.lr_rows.specs.Make.{
  as_address,
  as_network,
  addresses_of,
  networks_of,
  is_within,
  becomes,
  takes_over,
  turns_back_late,
  answers_arp,
  arp_rule_for,
};

use act_core::{Action, Step};
use expr_core::{Bits, Const, Item, Rel, Right, Typed, TypedAtom};
use net_rows::Rule;
use nv_base::{Field, Ip4, Items, OutOfMemory, Prefix};
use sb_model::{DatapathKind, Stage, as_ip4, both, equals, in_decimal, one_step};
use std::alloc::Global;

/// An address as an item of a comparison.
pub fn as_address(addr: Ip4) -> Item
    ensures { result ≡ as_address addr }
{
    Item::One(as_ip4(addr))
}

/// A network as an item of a comparison, `base/len` whatever its length.
pub fn as_network(net: Prefix) -> Item
    ensures { result ≡ as_network net }
{
    Item::Masked(as_ip4(net.base), in_decimal(u128::from(net.len)))
}

/// The network with its host part cleared.
pub fn cleared(net: Prefix) -> Prefix
    ensures { result ≡ cleared net }
{
    let size = 1u64 << (32 - net.len);
    Prefix {
        base: Ip4((u64::from(net.base.0) / size * size) as u32),
        len: net.len,
    }
}

/// The addresses that are written with networks, in their order. Where memory runs out the answer is `OutOfMemory`.
pub fn addresses_of(alloc: Global, nets: &[Prefix]) -> Result<Items<Item>, OutOfMemory>
    ensures { IfOk result (λ items. items ≡ addresses_of nets.now) }
{
    let mut items = Items::with_capacity(alloc, nets.len())?;
    for net in nets {
        items.push(as_address(net.base))?;
    }
    Ok(items)
}

/// Networks without their host parts, in their order. Where memory runs out the answer is `OutOfMemory`.
pub fn networks_of(alloc: Global, nets: &[Prefix]) -> Result<Items<Item>, OutOfMemory>
    ensures { IfOk result (λ items. items ≡ networks_of nets.now) }
{
    let mut items = Items::with_capacity(alloc, nets.len())?;
    for net in nets {
        items.push(as_network(cleared(*net)))?;
    }
    Ok(items)
}

/// The match that a field is an address of a network.
pub fn is_within(field: Field, net: Prefix) -> Typed
    ensures { result ≡ is_within field net }
{
    let item = Right::Item(as_network(net));
    Typed::atom(TypedAtom::Compare(field, Bits::Whole, Rel::Eq, item))
}

/// A whole field becomes a constant.
pub fn becomes(field: Field, constant: Const) -> Step
    ensures { result ≡ becomes field constant }
{
    Step::Set(field, Bits::Whole, constant)
}

/// A whole field becomes what another one is.
pub fn takes_over(field: Field, other: Field) -> Step
    ensures { result ≡ takes_over field other }
{
    Step::Copy(field, Bits::Whole, other)
}

/// Puts last that a whole field becomes a constant. After `OutOfMemory` the actions are as before.
pub fn put_becomes(
    actions: &mut Items<Action>,
    field: Field,
    constant: Const,
) -> Result<(), OutOfMemory>
    ensures ok { OnOk result (actions.new ≡ actions.old ++ steps (becomes field constant ∷ [])) }
    ensures err { OnErr result (actions.new ≡ actions.old) }
{
    actions.push(Action::Step(becomes(field, constant)))
}

/// Puts last that a whole field becomes what another one is. After `OutOfMemory` the actions are as before.
pub fn put_takes_over(
    actions: &mut Items<Action>,
    field: Field,
    other: Field,
) -> Result<(), OutOfMemory>
    ensures ok { OnOk result (actions.new ≡ actions.old ++ steps (takes_over field other ∷ [])) }
    ensures err { OnErr result (actions.new ≡ actions.old) }
{
    actions.push(Action::Step(takes_over(field, other)))
}

/// Puts last that a packet goes back by the port that it came in by, through the last table of egress alone. Where
/// memory runs out the answer is `OutOfMemory`, and what was put so far stays.
pub fn put_turn_back_late(steps: &mut Items<Step>) -> Result<(), OutOfMemory>
    ensures { OnOk result (steps.new ≡ steps.old ++ turns_back_late) }
{
    steps.push(takes_over(Field::Outport, Field::Inport))?;
    steps.push(becomes(Field::FlagsLoopback, in_decimal(1)))?;
    steps.push(Step::Jump {
        egress: true,
        table: DatapathKind::Router.last_table(),
    })?;
    Ok(())
}

/// The actions that answer an ARP request: what was asked for has the MAC of the port that it came in by. Where
/// memory runs out the answer is `OutOfMemory`.
pub fn answers_arp(alloc: Global) -> Result<Items<Action>, OutOfMemory>
    ensures { IfOk result (λ actions. actions ≡ steps answers_arp) }
{
    let mut actions = Items::with_capacity(alloc, 9)?;
    put_takes_over(&mut actions, Field::EthDst, Field::EthSrc)?;
    put_takes_over(&mut actions, Field::EthSrc, Field::Reg6)?;
    put_becomes(&mut actions, Field::ArpOp, in_decimal(2))?;
    put_takes_over(&mut actions, Field::ArpTha, Field::ArpSha)?;
    put_takes_over(&mut actions, Field::ArpSha, Field::Reg6)?;
    actions.push(Action::Step(Step::Exchange(Field::ArpTpa, Field::ArpSpa)))?;
    put_takes_over(&mut actions, Field::Outport, Field::Inport)?;
    put_becomes(&mut actions, Field::FlagsLoopback, in_decimal(1))?;
    actions.push(Action::Step(Step::Output))?;
    Ok(actions)
}

/// The rule by which an ARP request for this address is answered at each port. Where memory runs out the answer is
/// `OutOfMemory`.
pub fn arp_rule_for(alloc: Global, addr: Ip4) -> Result<Rule, OutOfMemory>
    ensures { IfOk result (λ r. r ≡ arp_rule_for addr) }
{
    let actions = answers_arp(alloc)?;
    let is_request = equals(Field::ArpOp, in_decimal(1));
    Ok(Rule {
        stage: Stage::LrInIpInput,
        priority: 90,
        matching: both(alloc, is_request, equals(Field::ArpTpa, as_ip4(addr)))?,
        actions,
    })
}

/// The rule of one action, which has no block. Where memory runs out the answer is `OutOfMemory`.
#[inline]
pub fn one_step_rule(
    alloc: Global,
    stage: Stage,
    priority: u16,
    matching: Typed,
    step: Step,
) -> Result<Rule, OutOfMemory>
    ensures { IfOk result (λ r. r ≡ rule stage priority matching (steps (step ∷ []))) }
{
    Ok(Rule {
        stage,
        priority,
        matching,
        actions: one_step(alloc, step)?,
    })
}
