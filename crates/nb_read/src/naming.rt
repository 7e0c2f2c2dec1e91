//! Names of objects.
ghost use Rattle.std.specs.Prelude.{◌≡◌, ◌≤◌, ◌<◌, ◌+◌, ◌^◌, [], Ok, IfOk, IfErr, length};
ghost use Rattle.nb_words.specs.Fault.{IsFaultOf};
ghost use Rattle.std.specs.List.{list_all};
ghost use Rattle.nb_read.specs.Readings.{object_name, is_set_byte, is_set_name, set_name, is_owner_name, owner_name};
ghost use Rattle.nb_read.specs.Lists.{names};

use nb_records::{OwnerKind, Refusal};
use nb_words::{LineFault, Word};
use nv_base::{Items, Name, is_object_name};
use std::alloc::Global;

/// The name of a port, a datapath or a load balancer, or `BadName` with the word's number (which names there may be is
/// not from OVN). Where memory runs out the answer is `Memory`.
pub fn object_name(alloc: Global, number: u32, text: &[u8]) -> Result<Name, LineFault>
    ensures read { IfOk result (λ name. object_name number text.now ≡ Ok name) }
    ensures refused { IfErr result (λ fault. IsFaultOf (object_name number text.now) fault) }
{
    if !is_object_name(text) {
        return Err(LineFault::Refused(Refusal::BadName(number)));
    }
    Ok(Name::from_slice(alloc, text)?)
}

/// The ports of a group (ovn-nbctl(8), `pg-add`), or the refusal of the first word that is no name, as of `object_name`.
pub fn names(alloc: Global, number: u32, words: &[Word]) -> Result<Items<Name>, LineFault>
    requires { number + length words.now < 2 ^ 32 }
    ensures read { IfOk result (λ list. names [] number words.now ≡ Ok list) }
    ensures refused { IfErr result (λ fault. IsFaultOf (names [] number words.now) fault) }
{
    let mut found = Items::new(alloc);
    let mut at = number;
    for word in words {
        found.push(object_name(alloc, at, word.text.as_slice())?)?;
        at += 1;
    }
    Ok(found)
}

// A letter, a digit, `_` or `.`.
fn is_set_byte(byte: u8) -> bool
    ensures { result ≡ is_set_byte byte }
{
    matches!(byte, b'a'..=b'z' | b'A'..=b'Z' | b'0'..=b'9' | b'_' | b'.')
}

fn all_set_bytes(text: &[u8]) -> bool
    ensures { result ≡ list_all is_set_byte text.now }
{
    text.iter().all(|byte| is_set_byte(*byte))
}

/// Whether an address set and a port group may be named so: by 1 to 127 letters, digits, `_` and `.`, the first no digit
/// (not from OVN).
pub(crate) fn is_set_name(text: &[u8]) -> bool
    ensures { result ≡ is_set_name text.now }
{
    !text.is_empty()
        && text.len() <= 127
        && all_set_bytes(text)
        && !(b'0' <= text[0] && text[0] <= b'9')
}

/// The name of an address set or a port group, or `BadName` with the word's number (which names there may be is not from OVN).
/// Where memory runs out the answer is `Memory`.
pub fn set_name(alloc: Global, number: u32, text: &[u8]) -> Result<Name, LineFault>
    ensures read { IfOk result (λ name. set_name number text.now ≡ Ok name) }
    ensures refused { IfErr result (λ fault. IsFaultOf (set_name number text.now) fault) }
{
    if !is_set_name(text) {
        return Err(LineFault::Refused(Refusal::BadName(number)));
    }
    Ok(Name::from_slice(alloc, text)?)
}

// Whether the text may name the owner of an ACL, of that kind or of either.
fn is_owner_name(of: Option<OwnerKind>, text: &[u8]) -> bool
    ensures { result ≡ is_owner_name of text.now }
{
    match of {
        None => is_object_name(text) || is_set_name(text),
        Some(OwnerKind::Switch) => is_object_name(text),
        Some(OwnerKind::Group) => is_set_name(text),
    }
}

/// The name of the owner of an ACL, a switch or a port group (ovn-nbctl(8), `acl-add`, `--type`), or `BadName` with the word's
/// number. Where memory runs out the answer is `Memory`.
pub fn owner_name(
    alloc: Global,
    of: Option<OwnerKind>,
    number: u32,
    text: &[u8],
) -> Result<Name, LineFault>
    ensures read { IfOk result (λ name. owner_name of number text.now ≡ Ok name) }
    ensures refused { IfErr result (λ fault. IsFaultOf (owner_name of number text.now) fault) }
{
    if !is_owner_name(of, text) {
        return Err(LineFault::Refused(Refusal::BadName(number)));
    }
    Ok(Name::from_slice(alloc, text)?)
}
