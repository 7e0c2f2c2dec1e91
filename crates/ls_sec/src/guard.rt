//! The rules of the guards of a port: what each lets in and out.
ghost use Rattle.std.specs.Prelude.{◌≡◌, ◌≤◌, [], ◌∷◌, ◌++◌, length, IfOk, OnOk};
ghost use Rattle.sb_model.specs.Make.{in_hexadecimal, is_one_of, differs, is_none_of, all_of, one_of, goes_on, goes_out};
ghost use Rattle.net_rows.specs.PortSecurity.{
  own_items,
  items_for_many,
  from_guarded,
  to_guarded,
  lets_in_where,
  lets_out_where,
  ip4_type,
  arp_type,
  ip6_type,
  tells,
  open_rules,
  discovers,
  closed_rules,
  guard_rules,
};
ghost use Rattle.net_rows.specs.Unit.{rule, said_by};

use crate::addresses::{items_let_out, own_items};
use crate::one_step::one_step_rule;
use act_core::Step;
use expr_core::{Item, Typed};
use nb_records::Guard;
use net_rows::{Rule, Unit};
use nv_base::{Field, Ip4, Items, Kept, Mac, Name, OutOfMemory};
use sb_model::{
    Stage, as_ip4, as_mac, differs, either, equals, in_decimal, in_hexadecimal, is_none_of,
    is_one_of, is_port,
};
use sb_rows::NewRows;
use std::alloc::Global;

// A guard without networks lets any address of its MAC in and out.
pub(crate) fn put_guard_rules(
    alloc: Global,
    rows: &mut NewRows,
    unit: Unit,
    name: &Name,
    guard: &Guard,
) -> Result<(), OutOfMemory>
    ensures { OnOk result (rows.new ≡ rows.old ++ said_by unit (guard_rules name.now guard.now)) }
{
    if guard.nets.as_slice().is_empty() {
        put_open_rules(alloc, rows, unit, name, guard)
    } else {
        put_closed_rules(alloc, rows, unit, name, guard)
    }
}

fn put_open_rules(
    alloc: Global,
    rows: &mut NewRows,
    unit: Unit,
    name: &Name,
    guard: &Guard,
) -> Result<(), OutOfMemory>
    ensures { OnOk result (rows.new ≡ rows.old ++ said_by unit (open_rules name.now guard.now)) }
{
    unit.put(rows, lets_any_in(alloc, name, guard)?)?;
    unit.put(rows, lets_any_out(alloc, name, guard)?)?;
    Ok(())
}

fn put_closed_rules(
    alloc: Global,
    rows: &mut NewRows,
    unit: Unit,
    name: &Name,
    guard: &Guard,
) -> Result<(), OutOfMemory>
    ensures { OnOk result (rows.new ≡ rows.old ++ said_by unit (closed_rules name.now guard.now)) }
{
    unit.put(rows, lets_own_ip4_in(alloc, name, guard)?)?;
    unit.put(rows, lets_discovers_in(alloc, name, guard)?)?;
    unit.put(rows, lets_own_arp_in(alloc, name, guard)?)?;
    unit.put(rows, lets_others_in(alloc, name, guard)?)?;
    unit.put(rows, lets_own_ip4_out(alloc, name, guard)?)?;
    unit.put(rows, lets_others_out(alloc, name, guard)?)?;
    Ok(())
}

// What comes from the port with the MAC of the guard.
fn from_guarded(alloc: Global, name: &Name, guard: &Guard) -> Result<Items<Typed>, OutOfMemory>
    ensures { IfOk result (λ terms. terms ≡ from_guarded name.now guard.now) }
{
    let mut terms = Items::with_capacity(alloc, 3)?;
    terms.push(is_port(Field::Inport, name.copy(alloc)?))?;
    terms.push(equals(Field::EthSrc, as_mac(guard.mac)))?;
    Ok(terms)
}

// What goes out by the port to the MAC of the guard.
fn to_guarded(alloc: Global, name: &Name, guard: &Guard) -> Result<Items<Typed>, OutOfMemory>
    ensures { IfOk result (λ terms. terms ≡ to_guarded name.now guard.now) }
{
    let mut terms = Items::with_capacity(alloc, 3)?;
    terms.push(is_port(Field::Outport, name.copy(alloc)?))?;
    terms.push(equals(Field::EthDst, as_mac(guard.mac)))?;
    Ok(terms)
}

// What is all of this is let in.
fn lets_in(alloc: Global, terms: Items<Typed>) -> Result<Rule, OutOfMemory>
    requires { 2 ≤ length terms }
    ensures { IfOk result (λ r. r ≡ rule Stage.LsInCheckPortSec 90 (all_of terms) goes_on) }
{
    one_step_rule(
        alloc,
        Stage::LsInCheckPortSec,
        90,
        Typed::conjunction(terms),
        Step::Next,
    )
}

// What is all of this is let out.
fn lets_out(alloc: Global, terms: Items<Typed>) -> Result<Rule, OutOfMemory>
    requires { 2 ≤ length terms }
    ensures { IfOk result (λ r. r ≡ rule Stage.LsOutCheckPortSec 90 (all_of terms) goes_out) }
{
    one_step_rule(
        alloc,
        Stage::LsOutCheckPortSec,
        90,
        Typed::conjunction(terms),
        Step::Output,
    )
}

// An ARP packet whose sender tells this MAC.
fn tells(mac: Mac) -> Typed
    ensures { result ≡ tells mac }
{
    equals(Field::ArpSha, as_mac(mac))
}

// All but ARP packets that tell another MAC is let in.
fn lets_any_in(alloc: Global, name: &Name, guard: &Guard) -> Result<Rule, OutOfMemory>
    ensures { IfOk result (λ r. r ≡ lets_in_where name.now guard.now
        (one_of (tells guard.now.mac ∷ differs Field.EthType (in_hexadecimal 0x806) ∷ []) ∷ [])) }
{
    let mut terms = from_guarded(alloc, name, guard)?;
    let no_arp = differs(Field::EthType, in_hexadecimal(0x806));
    terms.push(either(alloc, tells(guard.mac), no_arp)?)?;
    lets_in(alloc, terms)
}

// All is let out.
fn lets_any_out(alloc: Global, name: &Name, guard: &Guard) -> Result<Rule, OutOfMemory>
    ensures { IfOk result (λ r. r ≡ lets_out_where name.now guard.now []) }
{
    let terms = to_guarded(alloc, name, guard)?;
    lets_out(alloc, terms)
}

// IPv4 from an address of the guard is let in.
fn lets_own_ip4_in(alloc: Global, name: &Name, guard: &Guard) -> Result<Rule, OutOfMemory>
    ensures { IfOk result (λ r. r ≡ lets_in_where name.now guard.now (is_one_of Field.Ip4Src (own_items guard.now) ∷ [])) }
{
    let mut terms = from_guarded(alloc, name, guard)?;
    terms.push(is_one_of(Field::Ip4Src, own_items(alloc, guard)?))?;
    lets_in(alloc, terms)
}

// A DHCP client that has no address yet is let in.
fn lets_discovers_in(alloc: Global, name: &Name, guard: &Guard) -> Result<Rule, OutOfMemory>
    ensures { IfOk result (λ r. r ≡ lets_in_where name.now guard.now discovers) }
{
    let mut terms = from_guarded(alloc, name, guard)?;
    terms.push(equals(Field::Ip4Src, as_ip4(Ip4(0))))?;
    terms.push(equals(Field::Ip4Dst, as_ip4(Ip4(0xffff_ffff))))?;
    terms.push(equals(Field::UdpSrc, in_decimal(68)))?;
    terms.push(equals(Field::UdpDst, in_decimal(67)))?;
    lets_in(alloc, terms)
}

// ARP packets that tell the MAC and an address of the guard are let in.
fn lets_own_arp_in(alloc: Global, name: &Name, guard: &Guard) -> Result<Rule, OutOfMemory>
    ensures { IfOk result (λ r. r ≡ lets_in_where name.now guard.now
        (tells guard.now.mac ∷ is_one_of Field.ArpSpa (own_items guard.now) ∷ [])) }
{
    let mut terms = from_guarded(alloc, name, guard)?;
    terms.push(tells(guard.mac))?;
    terms.push(is_one_of(Field::ArpSpa, own_items(alloc, guard)?))?;
    lets_in(alloc, terms)
}

// What is no IP and no ARP is let in.
fn lets_others_in(alloc: Global, name: &Name, guard: &Guard) -> Result<Rule, OutOfMemory>
    ensures { IfOk result (λ r. r ≡ lets_in_where name.now guard.now
        (is_none_of Field.EthType (ip4_type ∷ arp_type ∷ ip6_type ∷ []) ∷ [])) }
{
    let mut terms = from_guarded(alloc, name, guard)?;
    let types = vec![in alloc;
        Item::One(in_hexadecimal(0x800)),
        Item::One(in_hexadecimal(0x806)),
        Item::One(in_hexadecimal(0x86dd)),
    ]?;
    terms.push(is_none_of(Field::EthType, Items::from_items(types)))?;
    lets_in(alloc, terms)
}

// IPv4 to an address of the guard, or to many, is let out.
fn lets_own_ip4_out(alloc: Global, name: &Name, guard: &Guard) -> Result<Rule, OutOfMemory>
    ensures { IfOk result (λ r. r ≡ lets_out_where name.now guard.now
        (is_one_of Field.Ip4Dst (own_items guard.now ++ items_for_many guard.now) ∷ [])) }
{
    let mut terms = to_guarded(alloc, name, guard)?;
    terms.push(is_one_of(Field::Ip4Dst, items_let_out(alloc, guard)?))?;
    lets_out(alloc, terms)
}

// What is no IP is let out.
fn lets_others_out(alloc: Global, name: &Name, guard: &Guard) -> Result<Rule, OutOfMemory>
    ensures { IfOk result (λ r. r ≡ lets_out_where name.now guard.now
        (is_none_of Field.EthType (ip4_type ∷ ip6_type ∷ []) ∷ [])) }
{
    let mut terms = to_guarded(alloc, name, guard)?;
    let types = vec![in alloc;
        Item::One(in_hexadecimal(0x800)),
        Item::One(in_hexadecimal(0x86dd)),
    ]?;
    terms.push(is_none_of(Field::EthType, Items::from_items(types)))?;
    lets_out(alloc, terms)
}
