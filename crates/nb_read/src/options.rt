//! The options of switch ports.
ghost use Rattle.std.specs.Prelude.{◌≡◌, ◌≤◌, ◌<◌, ◌+◌, ◌^◌, [], Ok, IfOk, IfErr, length};
ghost use Rattle.nb_words.specs.Fault.{IsFaultOf};
ghost use Rattle.std.specs.Prelude.{None};
ghost use Rattle.nb_read.specs.Lists.{is_router_port, port_options};

use crate::naming::object_name;
use nb_records::Refusal;
use nb_words::{LineFault, Word};
use nv_base::Name;
use std::alloc::Global;

/// Whether the word sets the option `router-port` (ovn-nb(5), `options`).
pub fn is_router_port(word: &Word) -> bool
    ensures { result ≡ is_router_port word.now }
{
    word.text.as_slice().starts_with(b"router-port=")
}

/// The name that the options of a switch port give (ovn-nb(5), `options : router-port`), or `NotInProfile` with the number of the
/// first word that is another option, or a refusal as of `object_name`.
pub fn port_options(alloc: Global, number: u32, words: &[Word]) -> Result<Option<Name>, LineFault>
    requires { number + length words.now < 2 ^ 32 }
    ensures read { IfOk result (λ name. port_options None number words.now ≡ Ok name) }
    ensures refused { IfErr result (λ fault. IsFaultOf (port_options None number words.now) fault) }
{
    let mut found = None;
    let mut at = number;
    for word in words {
        if !is_router_port(word) {
            return Err(LineFault::Refused(Refusal::NotInProfile(at)));
        }
        found = Some(object_name(alloc, at, &word.text.as_slice()[12..])?);
        at += 1;
    }
    Ok(found)
}
