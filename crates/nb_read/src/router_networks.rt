//! The networks of router ports.
ghost use Rattle.std.specs.Prelude.{◌≡◌, ◌≤◌, ◌<◌, ◌+◌, ◌^◌, [], Ok, IfOk, IfErr, length};
ghost use Rattle.nb_words.specs.Fault.{IsFaultOf};
ghost use Rattle.nb_read.specs.Lists.{networks, is_same_network, is_network_there, next_network};

use crate::words::{cleared, prefix};
use nb_records::Refusal;
use nb_words::{LineFault, Word};
use nv_base::{Items, Prefix};
use std::alloc::Global;

// Whether two prefixes have the same address, or are in the same network.
fn is_same_network(one: Prefix, other: Prefix) -> bool
    ensures { result ≡ is_same_network one other }
{
    let first = cleared(one);
    let second = cleared(other);
    one.base.0 == other.base.0 || (first.base.0 == second.base.0 && one.len == other.len)
}

fn is_network_there(before: &[Prefix], prefix: Prefix) -> bool
    ensures { result ≡ is_network_there before.now prefix }
{
    before.iter().any(|other| is_same_network(*other, prefix))
}

// A network of a router port, after those before.
fn next_network(number: u32, before: &[Prefix], text: &[u8]) -> Result<Prefix, LineFault>
    ensures read { IfOk result (λ p. next_network number before.now text.now ≡ Ok p) }
    ensures refused { IfErr result (λ fault. IsFaultOf (next_network number before.now text.now) fault) }
{
    if text.starts_with(b"peer=") {
        return Err(LineFault::Refused(Refusal::NotInProfile(number)));
    }
    let read = prefix(number, text)?;
    if is_network_there(before, read) {
        return Err(LineFault::Refused(Refusal::BadAddress(number)));
    }
    Ok(read)
}

/// The networks of a router port (ovn-nbctl(8), `lrp-add`), or the refusal of the first word that is none, with its number:
/// `BadAddress`, also for a network that is there before, or `NotInProfile`. Where memory runs out the answer is `Memory`.
pub fn networks(alloc: Global, number: u32, words: &[Word]) -> Result<Items<Prefix>, LineFault>
    requires { number + length words.now < 2 ^ 32 }
    ensures read { IfOk result (λ list. networks [] number words.now ≡ Ok list) }
    ensures refused { IfErr result (λ fault. IsFaultOf (networks [] number words.now) fault) }
{
    let mut found = Items::new(alloc);
    let mut at = number;
    for word in words {
        found.push(next_network(at, found.as_slice(), word.text.as_slice())?)?;
        at += 1;
    }
    Ok(found)
}
