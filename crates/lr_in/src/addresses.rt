//! The rows of the addresses and networks of a router port.
ghost use Rattle.std.specs.Prelude.{◌≡◌, [], ◌∷◌, ◌++◌, IfOk, OnOk};
ghost use Rattle.expr_core.specs.Formula.Formula.{Leaf};
ghost use Rattle.sb_model.specs.Make.{is_port, is_one_of, differs, in_decimal, as_mac, equals, all_of, steps};
ghost use Rattle.net_rows.specs.Unit.{said_by};
ghost use Rattle.lr_rows.specs.Make.{networks_of, addresses_of};
ghost use Rattle.lr_rows.specs.Input.{learning_rule, own_source_rule, own_arp_rule, echo_rule, address_rules};

use crate::answers::answers_echo;
use act_core::{Action, Step};
use expr_core::{Bits, Item, Rel, Right, Typed, TypedAtom};
use lr_rows::{PortInInput, addresses_of, answers_arp, networks_of, one_step_rule};
use net_rows::{Rule, Unit};
use nv_base::{Field, Items, Kept, Mac, OutOfMemory};
use sb_model::{Stage, as_mac, differs, equals, in_decimal, is_one_of, is_port};
use sb_rows::NewRows;
use std::alloc::Global;

/// What neighbours tell, and what is said of the addresses of a port.
pub(crate) fn put_address_rules(
    alloc: Global,
    rows: &mut NewRows,
    unit: Unit,
    input: &PortInInput,
) -> Result<(), OutOfMemory>
    ensures { OnOk result (rows.new ≡ rows.old ++ said_by unit (address_rules input.now)) }
{
    unit.put(rows, learning_rule(alloc, input)?)?;
    unit.put(rows, own_source_rule(alloc, input)?)?;
    unit.put(rows, own_arp_rule(alloc, input)?)?;
    unit.put(rows, echo_rule(alloc, input)?)?;
    Ok(())
}

// The port learns who tells an address of its networks.
fn learning_rule(alloc: Global, input: &PortInInput) -> Result<Rule, OutOfMemory>
    ensures { IfOk result (λ r. r ≡ learning_rule input.now) }
{
    let actions = vec![in alloc; Action::Step(Step::PutArp), Action::Step(Step::Next)]?;
    Ok(Rule {
        stage: Stage::LrInLearnNeighbor,
        priority: 100,
        matching: tells_neighbour(alloc, input)?,
        actions: Items::from_items(actions),
    })
}

// An ARP packet at the port tells an address of its networks, with a unicast MAC that is not zero.
fn tells_neighbour(alloc: Global, input: &PortInInput) -> Result<Typed, OutOfMemory>
    ensures { IfOk result (λ t. t ≡ all_of
        (is_port Field.Inport input.now.name
        ∷ is_one_of Field.ArpSpa (networks_of input.now.nets)
        ∷ Leaf (TypedAtom.Compare Field.ArpSha (Bits.Bit 40) Rel.Eq (Right.Item (Item.One (in_decimal 0))))
        ∷ differs Field.ArpSha (as_mac 0)
        ∷ [])) }
{
    let nets = networks_of(alloc, input.nets.as_slice())?;
    let name = input.name.copy(alloc)?;
    let terms = vec![in alloc;
        is_port(Field::Inport, name),
        is_one_of(Field::ArpSpa, nets),
        tells_unicast(),
        differs(Field::ArpSha, as_mac(Mac(0))),
    ]?;
    Ok(Typed::conjunction(Items::from_items(terms)))
}

// The MAC that an ARP packet tells is unicast.
fn tells_unicast() -> Typed
    ensures { result ≡ Leaf (TypedAtom.Compare Field.ArpSha (Bits.Bit 40) Rel.Eq (Right.Item (Item.One (in_decimal 0)))) }
{
    Typed::atom(TypedAtom::Compare(
        Field::ArpSha,
        Bits::Bit(40),
        Rel::Eq,
        Right::Item(Item::One(in_decimal(0))),
    ))
}

// No other sender has an address of the port.
fn own_source_rule(alloc: Global, input: &PortInInput) -> Result<Rule, OutOfMemory>
    ensures { IfOk result (λ r. r ≡ own_source_rule input.now) }
{
    let from_own = is_one_of(Field::Ip4Src, addresses_of(alloc, input.nets.as_slice())?);
    one_step_rule(alloc, Stage::LrInIpInput, 100, from_own, Step::Drop)
}

// An ARP request at the port for an address of it is answered.
fn own_arp_rule(alloc: Global, input: &PortInInput) -> Result<Rule, OutOfMemory>
    ensures { IfOk result (λ r. r ≡ own_arp_rule input.now) }
{
    let actions = answers_arp(alloc)?;
    Ok(Rule {
        stage: Stage::LrInIpInput,
        priority: 90,
        matching: asks_for_own(alloc, input)?,
        actions,
    })
}

fn asks_for_own(alloc: Global, input: &PortInInput) -> Result<Typed, OutOfMemory>
    ensures { IfOk result (λ t. t ≡ all_of
        (is_port Field.Inport input.now.name ∷ equals Field.ArpOp (in_decimal 1) ∷ is_one_of Field.ArpTpa (addresses_of input.now.nets) ∷ [])) }
{
    let own = addresses_of(alloc, input.nets.as_slice())?;
    let name = input.name.copy(alloc)?;
    let terms = vec![in alloc;
        is_port(Field::Inport, name),
        equals(Field::ArpOp, in_decimal(1)),
        is_one_of(Field::ArpTpa, own),
    ]?;
    Ok(Typed::conjunction(Items::from_items(terms)))
}

// An ICMP echo request for an address of the port is answered.
fn echo_rule(alloc: Global, input: &PortInInput) -> Result<Rule, OutOfMemory>
    ensures { IfOk result (λ r. r ≡ echo_rule input.now) }
{
    let actions = answers_echo(alloc)?;
    Ok(Rule {
        stage: Stage::LrInIpInput,
        priority: 90,
        matching: is_echo(alloc, input)?,
        actions,
    })
}

fn is_echo(alloc: Global, input: &PortInInput) -> Result<Typed, OutOfMemory>
    ensures { IfOk result (λ t. t ≡ all_of
        (is_one_of Field.Ip4Dst (addresses_of input.now.nets) ∷ equals Field.Icmp4Type (in_decimal 8) ∷ equals Field.Icmp4Code (in_decimal 0) ∷ [])) }
{
    let own = addresses_of(alloc, input.nets.as_slice())?;
    let terms = vec![in alloc;
        is_one_of(Field::Ip4Dst, own),
        equals(Field::Icmp4Type, in_decimal(8)),
        equals(Field::Icmp4Code, in_decimal(0)),
    ]?;
    Ok(Typed::conjunction(Items::from_items(terms)))
}
