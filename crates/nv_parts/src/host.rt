//! Words of a MAC and addresses.
use crate::part::{Part, Piece, is_blank, pieces_of};
use crate::reason::Reason;
use nb_words::Word;
use nv_base::{Ip4, Mac, OutOfMemory, read_ip4, read_mac, read_prefix};
use std::alloc::Global;

// The address of a part of a word, of whatever length.
fn base_of(part: &[u8]) -> Option<Ip4> {
    match read_prefix(part) {
        Ok(prefix) => Some(prefix.base),
        Err(_) => None,
    }
}

fn is_base(part: &[u8], addr: Ip4) -> bool {
    match base_of(part) {
        Some(base) => base.0 == addr.0,
        None => false,
    }
}

// Whether a word has the address after its MAC.
fn has_address(word: &Word, addr: Ip4) -> bool {
    word.text
        .as_slice()
        .split(|byte| is_blank(*byte))
        .filter(|part| !part.is_empty())
        .skip(1)
        .any(|part| is_base(part, addr))
}

// Whether a word begins with the MAC.
fn has_mac(word: &Word, mac: Mac) -> bool {
    let mut parts = word
        .text
        .as_slice()
        .split(|byte| is_blank(*byte))
        .filter(|part| !part.is_empty());
    match parts.next() {
        Some(first) => is_mac(first, mac),
        None => false,
    }
}

fn is_mac(part: &[u8], mac: Mac) -> bool {
    match read_mac(part) {
        Ok(own) => own.0 == mac.0,
        Err(_) => false,
    }
}

// Whether the first piece is a MAC that a word before has.
fn repeats_mac(before: &[Word], first: &[u8]) -> bool {
    match read_mac(first) {
        Ok(mac) => before.iter().any(|word| has_mac(word, mac)),
        Err(_) => false,
    }
}

/// Why a text is no address, with a length where one may stand, if it is none.
pub(crate) fn no_address(text: &[u8], has_length: bool) -> Option<Reason> {
    match (
        read_ip4(text).is_ok(),
        read_prefix(text).is_ok(),
        has_length,
    ) {
        (true, _, _) | (_, true, true) => None,
        (false, true, false) => Some(Reason::WithLength),
        (false, false, false) => Some(Reason::NoAddress),
        (false, false, true) => Some(Reason::NoNetwork),
    }
}

// Whether a piece of a word after its MAC has an address that stands before it, in the word or in one before.
fn repeats_address(before: &[Word], text: &[u8], earlier: &[Piece], piece: Piece) -> bool {
    let Some(addr) = base_of(piece.of(text)) else {
        return false;
    };
    let in_word = earlier
        .iter()
        .skip(1)
        .any(|other| is_base(other.of(text), addr));
    in_word || before.iter().any(|word| has_address(word, addr))
}

// Why a piece of a word after its MAC is wrong, if it is.
fn wrong_piece(
    before: &[Word],
    text: &[u8],
    earlier: &[Piece],
    piece: Piece,
    has_length: bool,
) -> Option<Reason> {
    match no_address(piece.of(text), has_length) {
        Some(reason) => Some(reason),
        None if repeats_address(before, text, earlier, piece) => Some(Reason::RepeatedAddress),
        None => None,
    }
}

/// The part of a word that is wrong, which is a MAC and addresses, with lengths where these may stand, after other words of its list.
pub(crate) fn bad_host(
    alloc: Global,
    before: &[Word],
    text: &[u8],
    has_length: bool,
) -> Result<Option<Part>, OutOfMemory> {
    let pieces = pieces_of(alloc, text, b" \t\r")?;
    for (at, piece) in pieces.iter().enumerate() {
        let earlier = pieces.get(..at).unwrap_or(&[]);
        let reason = if at == 0 {
            if repeats_mac(before, piece.of(text)) {
                Some(Reason::RepeatedMac)
            } else {
                None
            }
        } else {
            wrong_piece(before, text, earlier, *piece, has_length)
        };
        if let Some(reason) = reason {
            return Ok(Some(Part::piece(reason, *piece)));
        }
    }
    Ok(None)
}
