//! The addresses of switch ports.
ghost use Rattle.std.specs.Prelude.{◌≡◌, ◌≤◌, ◌<◌, ◌+◌, ◌^◌, [], Ok, IfOk, IfErr, length};
ghost use Rattle.nb_words.specs.Fault.{IsFaultOf};
ghost use Rattle.std.specs.Prelude.{map};
ghost use Rattle.std.specs.List.{list_any};
ghost use Rattle.nb_read.specs.Lists.{addresses, has_mac, has_ip, is_ip, new_mac, new_ips, host, next_address};

use crate::split::parts;
use crate::words::{ip, mac};
use nb_records::{Addr, Refusal};
use nb_words::{LineFault, Word};
use nv_base::{Ip4, Items, Mac};
use std::alloc::Global;

// Whether the address has this MAC.
fn has_mac(mac: Mac, addr: &Addr) -> bool
    ensures { result ≡ has_mac mac addr.now }
{
    match addr {
        Addr::Unknown | Addr::Router => false,
        Addr::Host { mac: own, .. } => own.0 == mac.0,
    }
}

// Whether this address is among those.
fn is_among(ip: Ip4, ips: &[Ip4]) -> bool
    ensures { result ≡ list_any (is_ip ip) ips.now }
{
    ips.iter().any(|other| other.0 == ip.0)
}

// Whether the address has this IPv4 address.
fn has_ip(ip: Ip4, addr: &Addr) -> bool
    ensures { result ≡ has_ip ip addr.now }
{
    match addr {
        Addr::Unknown | Addr::Router => false,
        Addr::Host { ips, .. } => is_among(ip, ips.as_slice()),
    }
}

fn any_has_mac(mac: Mac, before: &[Addr]) -> bool
    ensures { result ≡ list_any (has_mac mac) before.now }
{
    before.iter().any(|addr| has_mac(mac, addr))
}

fn any_has_ip(ip: Ip4, before: &[Addr]) -> bool
    ensures { result ≡ list_any (has_ip ip) before.now }
{
    before.iter().any(|addr| has_ip(ip, addr))
}

// A MAC that no address before has.
fn new_mac(number: u32, before: &[Addr], text: &[u8]) -> Result<Mac, LineFault>
    ensures read { IfOk result (λ m. new_mac number before.now text.now ≡ Ok m) }
    ensures refused { IfErr result (λ fault. IsFaultOf (new_mac number before.now text.now) fault) }
{
    let read = mac(number, text)?;
    if any_has_mac(read, before) {
        return Err(LineFault::Refused(Refusal::BadAddress(number)));
    }
    Ok(read)
}

// IPv4 addresses that are not there before.
fn new_ips(
    alloc: Global,
    number: u32,
    before: &[Addr],
    texts: &[&[u8]],
) -> Result<Items<Ip4>, LineFault>
    ensures read { IfOk result (λ ips. new_ips number before.now [] (map (λ text. text.now) texts.now) ≡ Ok ips) }
    ensures refused { IfErr result (λ fault. IsFaultOf (new_ips number before.now [] (map (λ text. text.now) texts.now)) fault) }
{
    let mut ips = Items::new(alloc);
    for text in texts {
        let read = ip(number, text)?;
        if any_has_ip(read, before) || is_among(read, ips.as_slice()) {
            return Err(LineFault::Refused(Refusal::BadAddress(number)));
        }
        ips.push(read)?;
    }
    Ok(ips)
}

// A MAC and IPv4 addresses.
fn host(alloc: Global, number: u32, before: &[Addr], texts: &[&[u8]]) -> Result<Addr, LineFault>
    ensures read { IfOk result (λ a. host number before.now (map (λ text. text.now) texts.now) ≡ Ok a) }
    ensures refused { IfErr result (λ fault. IsFaultOf (host number before.now (map (λ text. text.now) texts.now)) fault) }
{
    match texts {
        [] => Err(LineFault::Refused(Refusal::BadMac(number))),
        [first, others @ ..] => {
            let mac = new_mac(number, before, first)?;
            let ips = new_ips(alloc, number, before, others)?;
            Ok(Addr::Host { mac, ips })
        }
    }
}

// An address of a switch port, after those before.
fn next_address(alloc: Global, number: u32, before: &[Addr], text: &[u8]) -> Result<Addr, LineFault>
    ensures read { IfOk result (λ a. next_address number before.now text.now ≡ Ok a) }
    ensures refused { IfErr result (λ fault. IsFaultOf (next_address number before.now text.now) fault) }
{
    if text == b"unknown".as_slice() {
        return Ok(Addr::Unknown);
    }
    if text == b"router".as_slice() {
        return Ok(Addr::Router);
    }
    if text == b"dynamic".as_slice() {
        return Err(LineFault::Refused(Refusal::NotInProfile(number)));
    }
    let texts = parts(alloc, text)?;
    host(alloc, number, before, &texts)
}

/// The addresses of a switch port (ovn-nb(5), `addresses`), or the refusal of the first word that is none, with its number:
/// `BadMac`, `BadAddress`, also for what is there before, or `NotInProfile`. Where memory runs out the answer is `Memory`.
pub fn addresses(alloc: Global, number: u32, words: &[Word]) -> Result<Items<Addr>, LineFault>
    requires { number + length words.now < 2 ^ 32 }
    ensures read { IfOk result (λ list. addresses [] number words.now ≡ Ok list) }
    ensures refused { IfErr result (λ fault. IsFaultOf (addresses [] number words.now) fault) }
{
    let mut found = Items::new(alloc);
    let mut at = number;
    for word in words {
        found.push(next_address(alloc, at, found.as_slice(), word.text.as_slice())?)?;
        at += 1;
    }
    Ok(found)
}
