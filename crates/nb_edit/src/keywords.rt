//! The keywords that stand at the places of a command, and its options.
ghost use Rattle.std.specs.Prelude.{◌≡◌};
ghost use Rattle.nb_edit.specs.Keywords.{may_stand, is_option, is_flag, is_whole};

use crate::form::{Flag, Place};
use nb_read::{nat_kind_of, proto_of, state_of, verdict_of, way_of};

// Whether the text has a `=`.
fn has_value(text: &[u8]) -> bool
    ensures { result ≡ may_stand Place.PortOption text.now }
{
    text.iter().any(|byte| *byte == b'=')
}

/// Whether the word may stand at this place as far as keywords go.
pub(crate) fn may_stand(place: Place, text: &[u8]) -> bool
    ensures { result ≡ may_stand place text.now }
{
    match place {
        Place::State => state_of(text).is_some(),
        Place::PortOption => has_value(text),
        Place::NatType => nat_kind_of(text).is_some(),
        Place::Protocol => proto_of(text).is_some() || text == b"sctp".as_slice(),
        Place::Direction => way_of(text).is_some(),
        Place::Verdict => verdict_of(text).is_some() || text == b"pass".as_slice(),
        _ => true,
    }
}

/// Whether a word before a command's name is an option.
pub(crate) fn is_option(text: &[u8]) -> bool
    ensures { result ≡ is_option text.now }
{
    text.starts_with(b"--")
}

/// Whether the word is this option, as far as its name goes.
pub(crate) fn is_flag(flag: Flag, text: &[u8]) -> bool
    ensures { result ≡ is_flag flag text.now }
{
    match flag {
        Flag::MayExist => text == b"--may-exist".as_slice(),
        Flag::IfExists => text == b"--if-exists".as_slice(),
        Flag::Policy => text.starts_with(b"--policy="),
        Flag::OwnerType => text.starts_with(b"--type="),
    }
}

/// Whether the value of the option, where it has one, is a keyword.
pub(crate) fn is_whole(text: &[u8]) -> bool
    ensures { result ≡ is_whole text.now }
{
    text == b"--may-exist".as_slice()
        || text == b"--if-exists".as_slice()
        || text == b"--policy=dst-ip".as_slice()
        || text == b"--policy=src-ip".as_slice()
        || text == b"--type=switch".as_slice()
        || text == b"--type=port-group".as_slice()
}
