//! Readings of single words.
ghost use Rattle.std.specs.Prelude.{◌≡◌, ◌≤◌, ◌<◌, ◌+◌, ◌^◌, [], Ok, IfOk, IfErr, length};
ghost use Rattle.nb_words.specs.Fault.{IsFaultOf};
ghost use Rattle.std.specs.Prelude.{◌==◌};
ghost use Rattle.std.specs.List.{list_any};
ghost use Rattle.nv_base.specs.Prefix.{block};
ghost use Rattle.nb_read.specs.Then.{and_then};
ghost use Rattle.nb_read.specs.Readings.{way, verdict, proto, nat_kind, port_kind, state, is_unicast, unicast, mac, no_address, ip, prefix, cleared, network, nexthop, logical, priority};
ghost use Rattle.nv_base.specs.Mac.{mac_of};
ghost use Rattle.nv_base.specs.Number.{below, number_of};

use crate::keywords::{nat_kind_of, port_kind_of, proto_of, state_of, verdict_of, way_of};
use nb_records::{NatKind, PortKind, Proto, Refusal, Verdict, Way};
use nb_words::LineFault;
use nv_base::{Ip4, Mac, Prefix, read_ip4, read_mac, read_number, read_prefix};

/// The direction of an ACL, `from-lport` or `to-lport` (ovn-nbctl(8), `acl-add`), or `WrongWords`.
pub fn way(number: u32, text: &[u8]) -> Result<Way, LineFault>
    ensures read { IfOk result (λ value. way number text.now ≡ Ok value) }
    ensures refused { IfErr result (λ fault. IsFaultOf (way number text.now) fault) }
{
    match way_of(text) {
        Some(value) => Ok(value),
        None => Err(LineFault::Refused(Refusal::WrongWords)),
    }
}

/// The verdict of an ACL (ovn-nbctl(8), `acl-add`), or `NotInProfile` with the word's number, as for `pass`.
pub fn verdict(number: u32, text: &[u8]) -> Result<Verdict, LineFault>
    ensures read { IfOk result (λ value. verdict number text.now ≡ Ok value) }
    ensures refused { IfErr result (λ fault. IsFaultOf (verdict number text.now) fault) }
{
    match verdict_of(text) {
        Some(value) => Ok(value),
        None => Err(LineFault::Refused(Refusal::NotInProfile(number))),
    }
}

/// The protocol of a load balancer, `tcp` or `udp` (ovn-nbctl(8), `lb-add`), or `NotInProfile` with the word's number, as for
/// `sctp`.
pub fn proto(number: u32, text: &[u8]) -> Result<Proto, LineFault>
    ensures read { IfOk result (λ value. proto number text.now ≡ Ok value) }
    ensures refused { IfErr result (λ fault. IsFaultOf (proto number text.now) fault) }
{
    match proto_of(text) {
        Some(value) => Ok(value),
        None => Err(LineFault::Refused(Refusal::NotInProfile(number))),
    }
}

/// The type of a NAT rule (ovn-nbctl(8), `lr-nat-add`), or `WrongWords`.
pub fn nat_kind(number: u32, text: &[u8]) -> Result<NatKind, LineFault>
    ensures read { IfOk result (λ value. nat_kind number text.now ≡ Ok value) }
    ensures refused { IfErr result (λ fault. IsFaultOf (nat_kind number text.now) fault) }
{
    match nat_kind_of(text) {
        Some(value) => Ok(value),
        None => Err(LineFault::Refused(Refusal::WrongWords)),
    }
}

/// The type of a switch port, empty or `router` (ovn-nb(5), `type`), or `NotInProfile` with the word's number.
pub fn port_kind(number: u32, text: &[u8]) -> Result<PortKind, LineFault>
    ensures read { IfOk result (λ value. port_kind number text.now ≡ Ok value) }
    ensures refused { IfErr result (λ fault. IsFaultOf (port_kind number text.now) fault) }
{
    match port_kind_of(text) {
        Some(value) => Ok(value),
        None => Err(LineFault::Refused(Refusal::NotInProfile(number))),
    }
}

/// Whether a port is to be enabled, by `enabled` or `disabled` (ovn-nbctl(8), `lsp-set-enabled`), or `WrongWords`.
pub fn state(number: u32, text: &[u8]) -> Result<bool, LineFault>
    ensures read { IfOk result (λ value. state number text.now ≡ Ok value) }
    ensures refused { IfErr result (λ fault. IsFaultOf (state number text.now) fault) }
{
    match state_of(text) {
        Some(value) => Ok(value),
        None => Err(LineFault::Refused(Refusal::WrongWords)),
    }
}

// Whether the MAC is neither zero nor multicast.
fn is_unicast(mac: Mac) -> bool
    ensures { result ≡ is_unicast mac }
{
    mac.0 / (1 << 40) % 2 != 1 && mac.0 != 0
}

// The MAC that the text spells, where it is unicast.
fn unicast_of(text: &[u8]) -> Option<Mac>
    ensures { result ≡ unicast (mac_of text.now) }
{
    match read_mac(text) {
        Ok(mac) if is_unicast(mac) => Some(mac),
        _ => None,
    }
}

/// A MAC that is neither zero nor multicast, or `BadMac` with the word's number.
pub fn mac(number: u32, text: &[u8]) -> Result<Mac, LineFault>
    ensures read { IfOk result (λ value. mac number text.now ≡ Ok value) }
    ensures refused { IfErr result (λ fault. IsFaultOf (mac number text.now) fault) }
{
    match unicast_of(text) {
        Some(value) => Ok(value),
        None => Err(LineFault::Refused(Refusal::BadMac(number))),
    }
}

// Whether the text has a `:`.
fn has_colon(text: &[u8]) -> bool
    ensures { result ≡ list_any (λ byte. byte == 58) text.now }
{
    text.iter().any(|byte| *byte == b':')
}

/// Why a text is refused that is no address.
pub(crate) fn no_address(number: u32, text: &[u8]) -> Refusal
    ensures { result ≡ no_address number text.now }
{
    if has_colon(text) && read_mac(text).is_err() {
        Refusal::NotInProfile(number)
    } else {
        Refusal::BadAddress(number)
    }
}

/// An IPv4 address, or, with the word's number, `NotInProfile` where the text has a `:` and is no MAC, as one of IPv6, and else
/// `BadAddress`.
pub fn ip(number: u32, text: &[u8]) -> Result<Ip4, LineFault>
    ensures read { IfOk result (λ value. ip number text.now ≡ Ok value) }
    ensures refused { IfErr result (λ fault. IsFaultOf (ip number text.now) fault) }
{
    match read_ip4(text) {
        Ok(value) => Ok(value),
        Err(_) => Err(LineFault::Refused(no_address(number, text))),
    }
}

/// An address with a length, or without: then it is 32.
pub(crate) fn prefix(number: u32, text: &[u8]) -> Result<Prefix, LineFault>
    ensures read { IfOk result (λ value. prefix number text.now ≡ Ok value) }
    ensures refused { IfErr result (λ fault. IsFaultOf (prefix number text.now) fault) }
{
    match read_prefix(text) {
        Ok(value) => Ok(value),
        Err(_) => Err(LineFault::Refused(no_address(number, text))),
    }
}

/// The prefix with its host part cleared.
pub(crate) fn cleared(prefix: Prefix) -> Prefix
    ensures { result ≡ cleared prefix }
{
    let size = 1u64 << (32 - prefix.len);
    Prefix {
        base: Ip4((u64::from(prefix.base.0) / size * size) as u32),
        len: prefix.len,
    }
}

/// An IPv4 address or network, its host part cleared (ovn-nbctl(8), `lr-route-add`), or a refusal as of `ip`.
#[tactic(auto, unfolding(crate::specs::Readings::network))]
pub fn network(number: u32, text: &[u8]) -> Result<Prefix, LineFault>
    ensures read { IfOk result (λ value. network number text.now ≡ Ok value) }
    ensures refused { IfErr result (λ fault. IsFaultOf (network number text.now) fault) }
{
    let read = prefix(number, text)?;
    Ok(cleared(read))
}

/// The address of the next router (ovn-nbctl(8), `lr-route-add`), or, with the word's number, `NotInProfile` for `discard`,
/// `BadAddress` for 0.0.0.0, and else a refusal as of `ip`.
pub fn nexthop(number: u32, text: &[u8]) -> Result<Ip4, LineFault>
    ensures read { IfOk result (λ value. nexthop number text.now ≡ Ok value) }
    ensures refused { IfErr result (λ fault. IsFaultOf (nexthop number text.now) fault) }
{
    if text == b"discard".as_slice() {
        return Err(LineFault::Refused(Refusal::NotInProfile(number)));
    }
    let addr = ip(number, text)?;
    if addr.0 == 0 {
        return Err(LineFault::Refused(Refusal::BadAddress(number)));
    }
    Ok(addr)
}

// An address, as the network of it alone.
fn whole(number: u32, text: &[u8]) -> Result<Prefix, LineFault>
    ensures read { IfOk result (λ value. and_then (ip number text.now) (λ a. Ok (block a 32)) ≡ Ok value) }
    ensures refused { IfErr result (λ fault. IsFaultOf (and_then (ip number text.now) (λ a. Ok (block a 32))) fault) }
{
    let base = ip(number, text)?;
    Ok(Prefix { base, len: 32 })
}

/// What a NAT rule of this kind changes, a network for `snat` and else an address (ovn-nbctl(8), `lr-nat-add`), or a refusal as
/// of `ip`.
pub fn logical(kind: NatKind, number: u32, text: &[u8]) -> Result<Prefix, LineFault>
    ensures read { IfOk result (λ value. logical kind number text.now ≡ Ok value) }
    ensures refused { IfErr result (λ fault. IsFaultOf (logical kind number text.now) fault) }
{
    match kind {
        NatKind::Snat => network(number, text),
        NatKind::Dnat => whole(number, text),
        NatKind::DnatAndSnat => whole(number, text),
    }
}

// A number below 32,768.
fn small_number(text: &[u8]) -> Option<u16>
    ensures { result ≡ below 32768 (number_of text.now) }
{
    match read_number(text) {
        Ok(value) => {
            if value < 32_768 {
                Some(value as u16)
            } else {
                None
            }
        }
        Err(_) => None,
    }
}

/// The priority of an ACL, up to 32,767 (ovn-nb(5), `priority`), or `BadNumber` with the word's number.
pub fn priority(number: u32, text: &[u8]) -> Result<u16, LineFault>
    ensures read { IfOk result (λ value. priority number text.now ≡ Ok value) }
    ensures refused { IfErr result (λ fault. IsFaultOf (priority number text.now) fault) }
{
    match small_number(text) {
        Some(value) => Ok(value),
        None => Err(LineFault::Refused(Refusal::BadNumber(number))),
    }
}
