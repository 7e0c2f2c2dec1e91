//! The rows of an address that is answered for.
ghost use Rattle.std.specs.Prelude.{◌≡◌, [], ◌∷◌, ◌++◌, IfOk, OnOk};
ghost use Rattle.sb_model.specs.Make.{is_port, all_of, steps, goes_on};
ghost use Rattle.net_rows.specs.Lookup.{requests, answers, arp_rules};
ghost use Rattle.net_rows.specs.Unit.{rule, said_by};

use act_core::{Action, Step};
use expr_core::{Bits, Const, Typed};
use net_rows::{Rule, Unit};
use nv_base::{Field, Ip4, Items, Kept, Mac, Name, OutOfMemory};
use sb_model::{Stage, as_ip4, as_mac, equals, in_decimal, is_port, one_step};
use sb_rows::NewRows;
use std::alloc::Global;

/// The port's own request for its address goes on, and that of others is answered.
pub(crate) fn put_arp_rules(
    alloc: Global,
    rows: &mut NewRows,
    unit: Unit,
    name: &Name,
    mac: Mac,
    ip: Ip4,
) -> Result<(), OutOfMemory>
    ensures { OnOk result (rows.new ≡ rows.old ++ said_by unit (arp_rules name.now mac ip)) }
{
    unit.put(rows, own_request_rule(alloc, name, ip)?)?;
    unit.put(rows, answer_rule(alloc, mac, ip)?)?;
    Ok(())
}

fn own_request_rule(alloc: Global, name: &Name, ip: Ip4) -> Result<Rule, OutOfMemory>
    ensures { IfOk result (λ r. r ≡ rule Stage.LsInArpRsp 100 (all_of (is_port Field.Inport name.now ∷ requests ip)) goes_on) }
{
    let mut terms = Items::with_capacity(alloc, 3)?;
    terms.push(is_port(Field::Inport, name.copy(alloc)?))?;
    push_request(&mut terms, ip)?;
    Ok(Rule {
        stage: Stage::LsInArpRsp,
        priority: 100,
        matching: Typed::conjunction(terms),
        actions: one_step(alloc, Step::Next)?,
    })
}

fn answer_rule(alloc: Global, mac: Mac, ip: Ip4) -> Result<Rule, OutOfMemory>
    ensures { IfOk result (λ r. r ≡ rule Stage.LsInArpRsp 50 (all_of (requests ip)) (steps (answers mac ip))) }
{
    let mut terms = Items::with_capacity(alloc, 2)?;
    push_request(&mut terms, ip)?;
    Ok(Rule {
        stage: Stage::LsInArpRsp,
        priority: 50,
        matching: Typed::conjunction(terms),
        actions: answers(alloc, mac, ip)?,
    })
}

// Puts what an ARP request for an address is after other terms.
fn push_request(terms: &mut Items<Typed>, ip: Ip4) -> Result<(), OutOfMemory>
    ensures { OnOk result (terms.new ≡ terms.old ++ requests ip) }
{
    terms.push(equals(Field::ArpOp, in_decimal(1)))?;
    terms.push(equals(Field::ArpTpa, as_ip4(ip)))?;
    Ok(())
}

// The actions that answer a request: this MAC has the address. They are pushed one by one, since each host's address has such a row,
// and a `vec!` of ten took more instructions.
fn answers(alloc: Global, mac: Mac, ip: Ip4) -> Result<Items<Action>, OutOfMemory>
    ensures { IfOk result (λ actions. actions ≡ steps (answers mac ip)) }
{
    let mut actions = Items::with_capacity(alloc, 10)?;
    push_copy(&mut actions, Field::EthDst, Field::EthSrc)?;
    push_set(&mut actions, Field::EthSrc, as_mac(mac))?;
    push_set(&mut actions, Field::ArpOp, in_decimal(2))?;
    push_copy(&mut actions, Field::ArpTha, Field::ArpSha)?;
    push_set(&mut actions, Field::ArpSha, as_mac(mac))?;
    push_copy(&mut actions, Field::ArpTpa, Field::ArpSpa)?;
    push_set(&mut actions, Field::ArpSpa, as_ip4(ip))?;
    push_copy(&mut actions, Field::Outport, Field::Inport)?;
    push_set(&mut actions, Field::FlagsLoopback, in_decimal(1))?;
    actions.push(Action::Step(Step::Output))?;
    Ok(actions)
}

// Puts last that one field becomes the other.
fn push_copy(actions: &mut Items<Action>, to: Field, from: Field) -> Result<(), OutOfMemory>
    ensures { OnOk result (actions.new ≡ actions.old ++ steps (Step.Copy to Bits.Whole from ∷ [])) }
{
    actions.push(Action::Step(Step::Copy(to, Bits::Whole, from)))
}

// Puts last that a field becomes a constant.
fn push_set(actions: &mut Items<Action>, to: Field, constant: Const) -> Result<(), OutOfMemory>
    ensures { OnOk result (actions.new ≡ actions.old ++ steps (Step.Set to Bits.Whole constant ∷ [])) }
{
    actions.push(Action::Step(Step::Set(to, Bits::Whole, constant)))
}
