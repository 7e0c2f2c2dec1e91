//! The port security of switch ports.
ghost use Rattle.std.specs.Prelude.{◌≡◌, ◌≤◌, ◌<◌, ◌+◌, ◌^◌, [], Ok, IfOk, IfErr, length};
ghost use Rattle.nb_words.specs.Fault.{IsFaultOf};
ghost use Rattle.std.specs.Prelude.{map};
ghost use Rattle.std.specs.List.{list_any};
ghost use Rattle.nb_read.specs.Lists.{guards, is_base, has_net, guards_mac, guard_mac, new_nets, guarded, next_guard};

use crate::split::parts;
use crate::words::{mac, prefix};
use nb_records::{Guard, Refusal};
use nb_words::{LineFault, Word};
use nv_base::{Items, Mac, Prefix};
use std::alloc::Global;

// Whether this address is among those, of whatever length.
fn is_among(net: Prefix, nets: &[Prefix]) -> bool
    ensures { result ≡ list_any (is_base net) nets.now }
{
    nets.iter().any(|other| other.base.0 == net.base.0)
}

fn has_net(net: Prefix, guard: &Guard) -> bool
    ensures { result ≡ has_net net guard.now }
{
    is_among(net, guard.nets.as_slice())
}

fn any_has_net(net: Prefix, before: &[Guard]) -> bool
    ensures { result ≡ list_any (has_net net) before.now }
{
    before.iter().any(|guard| has_net(net, guard))
}

fn any_guards_mac(mac: Mac, before: &[Guard]) -> bool
    ensures { result ≡ list_any (guards_mac mac) before.now }
{
    before.iter().any(|guard| guard.mac.0 == mac.0)
}

// A MAC that no guard before has.
fn guard_mac(number: u32, before: &[Guard], text: &[u8]) -> Result<Mac, LineFault>
    ensures read { IfOk result (λ m. guard_mac number before.now text.now ≡ Ok m) }
    ensures refused { IfErr result (λ fault. IsFaultOf (guard_mac number before.now text.now) fault) }
{
    let read = mac(number, text)?;
    if any_guards_mac(read, before) {
        return Err(LineFault::Refused(Refusal::BadAddress(number)));
    }
    Ok(read)
}

// Addresses and networks whose addresses are not there before.
fn new_nets(
    alloc: Global,
    number: u32,
    before: &[Guard],
    texts: &[&[u8]],
) -> Result<Items<Prefix>, LineFault>
    ensures read { IfOk result (λ nets. new_nets number before.now [] (map (λ text. text.now) texts.now) ≡ Ok nets) }
    ensures refused { IfErr result (λ fault. IsFaultOf (new_nets number before.now [] (map (λ text. text.now) texts.now)) fault) }
{
    let mut nets = Items::new(alloc);
    for text in texts {
        let read = prefix(number, text)?;
        if any_has_net(read, before) || is_among(read, nets.as_slice()) {
            return Err(LineFault::Refused(Refusal::BadAddress(number)));
        }
        nets.push(read)?;
    }
    Ok(nets)
}

// A MAC, and the addresses and networks that go with it.
fn guarded(
    alloc: Global,
    number: u32,
    before: &[Guard],
    texts: &[&[u8]],
) -> Result<Guard, LineFault>
    ensures read { IfOk result (λ g. guarded number before.now (map (λ text. text.now) texts.now) ≡ Ok g) }
    ensures refused { IfErr result (λ fault. IsFaultOf (guarded number before.now (map (λ text. text.now) texts.now)) fault) }
{
    match texts {
        [] => Err(LineFault::Refused(Refusal::BadMac(number))),
        [first, others @ ..] => {
            let mac = guard_mac(number, before, first)?;
            let nets = new_nets(alloc, number, before, others)?;
            Ok(Guard { mac, nets })
        }
    }
}

// What a switch port may send and get, after what was before.
fn next_guard(alloc: Global, number: u32, before: &[Guard], text: &[u8]) -> Result<Guard, LineFault>
    ensures read { IfOk result (λ g. next_guard number before.now text.now ≡ Ok g) }
    ensures refused { IfErr result (λ fault. IsFaultOf (next_guard number before.now text.now) fault) }
{
    let texts = parts(alloc, text)?;
    guarded(alloc, number, before, &texts)
}

/// What a switch port may send and get (ovn-nb(5), `port_security`), or the refusal of the first word that is none, with its
/// number: `BadMac`, `BadAddress`, also for what is there before, or `NotInProfile`. Where memory runs out the answer is `Memory`.
pub fn guards(alloc: Global, number: u32, words: &[Word]) -> Result<Items<Guard>, LineFault>
    requires { number + length words.now < 2 ^ 32 }
    ensures read { IfOk result (λ list. guards [] number words.now ≡ Ok list) }
    ensures refused { IfErr result (λ fault. IsFaultOf (guards [] number words.now) fault) }
{
    let mut found = Items::new(alloc);
    let mut at = number;
    for word in words {
        found.push(next_guard(alloc, at, found.as_slice(), word.text.as_slice())?)?;
        at += 1;
    }
    Ok(found)
}
