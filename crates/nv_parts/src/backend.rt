//! The backends of a VIP.
use crate::part::{Part, pieces_of};
use crate::reason::Reason;
use nv_base::{OutOfMemory, read_ip4};
use std::alloc::Global;

// The texts before and after the first `:`, where there is one.
fn around_colon(text: &[u8]) -> (&[u8], Option<&[u8]>) {
    let Some(at) = text.iter().position(|byte| *byte == b':') else {
        return (text, None);
    };
    let after = text.get(at.saturating_add(1)..).unwrap_or(b"");
    (text.get(..at).unwrap_or(text), Some(after))
}

// Whether the text is a port of TCP or UDP.
fn is_port(text: &[u8]) -> bool {
    match std::str::from_utf8(text) {
        Ok(text) => match text.parse::<u16>() {
            Ok(port) => port != 0,
            Err(_) => false,
        },
        Err(_) => false,
    }
}

// Why a text is no backend of a VIP that has a port or none, if it is none.
fn no_backend(text: &[u8], has_port: bool) -> Option<Reason> {
    let (addr, port) = around_colon(text);
    if read_ip4(addr).is_err() {
        return Some(Reason::NoBackend);
    }
    match port {
        None if has_port => Some(Reason::BackendWithoutPort),
        None => None,
        Some(port) if !is_port(port) => Some(Reason::NoBackend),
        Some(_) if has_port => None,
        Some(_) => Some(Reason::BackendWithPort),
    }
}

/// The backend of a word that is wrong, of this VIP.
pub(crate) fn bad_backend(
    alloc: Global,
    vip: &[u8],
    text: &[u8],
) -> Result<Option<Part>, OutOfMemory> {
    let has_port = vip.contains(&b':');
    let pieces = pieces_of(alloc, text, b",")?;
    for piece in &pieces {
        if let Some(reason) = no_backend(piece.of(text), has_port) {
            return Ok(Some(Part::piece(reason, *piece)));
        }
    }
    Ok(Some(Part::whole(Reason::NoBackend, text)))
}
