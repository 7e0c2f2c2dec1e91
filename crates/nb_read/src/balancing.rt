//! VIPs and their backends.
ghost use Rattle.std.specs.Prelude.{◌≡◌, ◌==◌, ◌≤◌, ◌<◌, ◌+◌, ◌^◌, [], Ok, IfOk, IfErr, length};
ghost use Rattle.nb_words.specs.Fault.{IsFaultOf};
ghost use Rattle.std.specs.Prelude.{map, option_map, IfSome};
ghost use Rattle.std.specs.List.{slice_split};
ghost use Rattle.nv_base.specs.Bytes.{around_first};
ghost use Rattle.nv_base.specs.Number.{below, decimal_of};
ghost use Rattle.nb_read.specs.Readings as readings;
ghost use Rattle.nb_read.specs.Readings.{service_port, frontend_of, vip, has_port_as, backend, backends_of, backends};

use crate::words::proto;
use nb_records::{Backend, Frontend, Proto, Refusal};
use nb_words::LineFault;
use nv_base::{Items, OutOfMemory, read_ip4, read_number};
use std::alloc::Global;

// The texts before and after the first `:`, if there is one.
fn around_colon(text: &[u8]) -> Option<(&[u8], &[u8])>
    ensures { option_map (λ parts. (parts.0.now, parts.1.now)) result ≡ around_first 58 text.now }
{
    let at = text.iter().position(|byte| *byte == b':')?;
    Some((&text[..at], &text[at + 1..]))
}

// A decimal below 65,536.
fn small_decimal(text: &[u8]) -> Option<u16>
    ensures { result ≡ below 65536 (decimal_of text.now) }
{
    if text.starts_with(b"0x") {
        return None;
    }
    match read_number(text) {
        Ok(number) if number < 65_536 => Some(number as u16),
        _ => None,
    }
}

// A port of TCP or UDP: a decimal from 1 to 65,535.
fn service_port(text: &[u8]) -> Option<u16>
    ensures { result ≡ service_port text.now }
{
    match small_decimal(text) {
        Some(port) if port != 0 => Some(port),
        _ => None,
    }
}

// An address and a port.
fn with_port(addr: &[u8], port: &[u8]) -> Option<Frontend>
    ensures { result ≡ readings.with_port addr.now port.now }
{
    let port = service_port(port)?;
    match read_ip4(addr) {
        Ok(addr) => Some(Frontend {
            addr,
            port: Some(port),
        }),
        Err(_) => None,
    }
}

// An address alone.
fn alone(addr: &[u8]) -> Option<Frontend>
    ensures { result ≡ readings.alone addr.now }
{
    match read_ip4(addr) {
        Ok(addr) => Some(Frontend { addr, port: None }),
        Err(_) => None,
    }
}

// An address, and a port where there is one.
fn frontend_of(text: &[u8]) -> Option<Frontend>
    ensures { result ≡ frontend_of text.now }
{
    match around_colon(text) {
        Some((addr, port)) => with_port(addr, port),
        None => alone(text),
    }
}

/// Where a load balancer takes connections, `IP` or `IP:PORT` (ovn-nbctl(8), `lb-add`), or `BadAddress` with the word's number.
#[tactic(auto, unfolding(crate::specs::Readings::vip))]
pub fn vip(number: u32, text: &[u8]) -> Result<Frontend, LineFault>
    ensures read { IfOk result (λ at. vip number text.now ≡ Ok at) }
    ensures refused { IfErr result (λ fault. IsFaultOf (vip number text.now) fault) }
{
    match frontend_of(text) {
        Some(at) => Ok(at),
        None => Err(LineFault::Refused(Refusal::BadAddress(number))),
    }
}

// Whether there is a port exactly where there is to be one.
fn has_port_as(has_port: bool, port: Option<u16>) -> bool
    ensures { result ≡ has_port_as has_port port }
{
    if has_port {
        port.is_some()
    } else {
        port.is_none()
    }
}

// A backend, with a port exactly where the VIP has one.
fn backend(has_port: bool, text: &[u8]) -> Option<Backend>
    ensures { result ≡ backend has_port (frontend_of text.now) }
{
    match frontend_of(text) {
        Some(at) if has_port_as(has_port, at.port) => Some(Backend {
            addr: at.addr,
            port: at.port,
        }),
        _ => None,
    }
}

// The texts between commas.
fn between_commas(alloc: Global, text: &[u8]) -> Result<Vec<&[u8]>, OutOfMemory>
    ensures { IfOk result (λ found. map (λ part. part.now) found.items ≡ slice_split (λ byte. byte == 44) text.now) }
{
    Ok(text.split(|byte| *byte == b',').collect(alloc)?)
}

// The backends of these texts.
fn backends_of(
    alloc: Global,
    has_port: bool,
    texts: &[&[u8]],
) -> Result<Option<Items<Backend>>, OutOfMemory>
    ensures { IfOk result (λ found. found ≡ backends_of has_port [] (map (λ text. text.now) texts.now)) }
{
    let mut found = Items::new(alloc);
    for text in texts {
        match backend(has_port, text) {
            Some(next) => found.push(next)?,
            None => return Ok(None),
        }
    }
    Ok(Some(found))
}

/// What a VIP stands for, backends with commas between (ovn-nbctl(8), `lb-add`), each with a port exactly where the VIP has one,
/// or `BadAddress` with the word's number. Where memory runs out the answer is `Memory`.
pub fn backends(
    alloc: Global,
    has_port: bool,
    number: u32,
    text: &[u8],
) -> Result<Items<Backend>, LineFault>
    ensures read { IfOk result (λ found. backends has_port number text.now ≡ Ok found) }
    ensures refused { IfErr result (λ fault. IsFaultOf (backends has_port number text.now) fault) }
{
    let texts = between_commas(alloc, text)?;
    match backends_of(alloc, has_port, &texts)? {
        Some(found) => Ok(found),
        None => Err(LineFault::Refused(Refusal::BadAddress(number))),
    }
}
