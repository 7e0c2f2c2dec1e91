//! The members of address sets.
ghost use Rattle.std.specs.Prelude.{◌≡◌, ◌≤◌, ◌<◌, ◌+◌, ◌^◌, [], Ok, IfOk, IfErr, length};
ghost use Rattle.nb_words.specs.Fault.{IsFaultOf};
ghost use Rattle.nb_read.specs.Lists.{members};
ghost use Rattle.nb_read.specs.Readings.{member_of};
ghost use Rattle.nv_base.specs.Mac.{mac_of};

use crate::words::prefix;
use nb_records::{Member, Refusal};
use nb_words::{LineFault, Word};
use nv_base::{Items, read_mac};
use std::alloc::Global;

// A member of an address set.
fn member(number: u32, text: &[u8]) -> Result<Member, LineFault>
    ensures read { IfOk result (λ m. member_of number text.now (mac_of text.now) ≡ Ok m) }
    ensures refused { IfErr result (λ fault. IsFaultOf (member_of number text.now (mac_of text.now)) fault) }
{
    match read_mac(text) {
        Ok(mac) => {
            if mac.0 == 0 {
                return Err(LineFault::Refused(Refusal::BadMac(number)));
            }
            Ok(Member::Mac(mac))
        }
        Err(_) => {
            let net = prefix(number, text)?;
            Ok(Member::Net(net))
        }
    }
}

/// The members of an address set (ovn-nb(5), `Address_Set`), MACs but zero and prefixes with their host parts, or the refusal of
/// the first word that is none, with its number. Where memory runs out the answer is `Memory`.
pub fn members(alloc: Global, number: u32, words: &[Word]) -> Result<Items<Member>, LineFault>
    requires { number + length words.now < 2 ^ 32 }
    ensures read { IfOk result (λ list. members [] number words.now ≡ Ok list) }
    ensures refused { IfErr result (λ fault. IsFaultOf (members [] number words.now) fault) }
{
    let mut found = Items::new(alloc);
    let mut at = number;
    for word in words {
        found.push(member(at, word.text.as_slice())?)?;
        at += 1;
    }
    Ok(found)
}
