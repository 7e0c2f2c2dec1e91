//! What is wrong of a word that stands at a place of a command.
use crate::backend::bad_backend;
use crate::host::{bad_host, no_address};
use crate::part::{Part, Piece, pieces_of};
use crate::reason::Reason;
use nb_edit::Place;
use nb_words::Word;
use nv_base::{OutOfMemory, read_ip4, read_mac, read_prefix};
use std::alloc::Global;

// The text of the word at this place, or nothing.
fn text_at(words: &[Word], at: usize) -> &[u8] {
    match words.get(at) {
        Some(word) => word.text.as_slice(),
        None => b"",
    }
}

// Why a text is no MAC that is neither zero nor multicast.
fn no_mac(text: &[u8]) -> Reason {
    match read_mac(text) {
        Ok(mac) if mac.0 == 0 => Reason::ZeroMac,
        Ok(_) => Reason::MulticastMac,
        Err(_) => Reason::NoMac,
    }
}

/// The part of a word that is wrong, which is refused as `BadMac` at this place of a command.
pub fn bad_mac(alloc: Global, place: Place, text: &[u8]) -> Result<Part, OutOfMemory> {
    match place {
        Place::Address | Place::Guard => first_part(alloc, text),
        _ => Ok(Part::whole(no_mac(text), text)),
    }
}

// The MAC before addresses.
fn first_part(alloc: Global, text: &[u8]) -> Result<Part, OutOfMemory> {
    let pieces = pieces_of(alloc, text, b" \t\r")?;
    Ok(match pieces.first() {
        Some(piece) => Part::piece(no_mac(piece.of(text)), *piece),
        None => Part::whole(Reason::NoMac, text),
    })
}

// Where the list begins among the words after a command's name whose items stand at this place.
fn list_start(place: Place) -> usize {
    match place {
        Place::Network => 3,
        _ => 1,
    }
}

// Why a word alone is no address of that kind.
fn bad_word(place: Place, text: &[u8]) -> Reason {
    match place {
        Place::Nexthop if read_ip4(text).is_ok() => Reason::ZeroNexthop,
        Place::Network if read_prefix(text).is_ok() => Reason::RepeatedNetwork,
        Place::Logical if read_prefix(text).is_ok() => Reason::WithLength,
        Place::Network | Place::Prefix | Place::Logical => Reason::NoNetwork,
        Place::Member => Reason::NoMember,
        Place::Vip => Reason::NoVip,
        _ => no_address(text, false).unwrap_or(Reason::NoAddress),
    }
}

/// The part of a word that is wrong, which is refused as `BadAddress`: the word at this place, from 0, among those after the name of a
/// command, and what stands there. None where the word shows no fault.
pub fn bad_address(
    alloc: Global,
    place: Place,
    words: &[Word],
    at: usize,
) -> Result<Option<Part>, OutOfMemory> {
    let text = text_at(words, at);
    let before = words.get(list_start(place)..at).unwrap_or(&[]);
    match place {
        Place::Address => bad_host(alloc, before, text, false),
        Place::Guard => bad_host(alloc, before, text, true),
        Place::Backends => bad_backend(alloc, text_at(words, at.saturating_sub(1)), text),
        _ => Ok(Some(Part::whole(bad_word(place, text), text))),
    }
}

// Whether a part of a word is an address that is not of this profile, as one of IPv6.
fn is_foreign(part: &[u8]) -> bool {
    part.contains(&b':') && read_mac(part).is_err()
}

/// Where the first address of IPv6 stands in a text, if one does: from a place to before another.
pub fn foreign_part(alloc: Global, text: &[u8]) -> Result<Option<(usize, usize)>, OutOfMemory> {
    let pieces = pieces_of(alloc, text, b" \t\r")?;
    let found: Option<&Piece> = pieces.iter().find(|piece| is_foreign(piece.of(text)));
    Ok(match found {
        Some(piece) => Some((piece.start, piece.end)),
        None => None,
    })
}
