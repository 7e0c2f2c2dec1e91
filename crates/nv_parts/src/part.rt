//! Parts of words.
use crate::reason::Reason;
use nv_base::OutOfMemory;
use std::alloc::Global;

/// The part of a word that is wrong, by its bytes without the quotes, and why it is.
#[derive(Clone, Copy)]
pub struct Part {
    pub reason: Reason,
    pub start: usize,
    pub end: usize,
}

/// Bytes of a text, from a place to before another.
#[derive(Clone, Copy)]
pub(crate) struct Piece {
    pub start: usize,
    pub end: usize,
}

impl Part {
    /// The whole of a text.
    pub(crate) fn whole(reason: Reason, text: &[u8]) -> Part {
        Part {
            reason,
            start: 0,
            end: text.len(),
        }
    }

    /// A piece of one.
    pub(crate) fn piece(reason: Reason, piece: Piece) -> Part {
        Part {
            reason,
            start: piece.start,
            end: piece.end,
        }
    }
}

impl Piece {
    /// Its bytes.
    pub(crate) fn of<'t>(&self, text: &'t [u8]) -> &'t [u8] {
        text.get(self.start..self.end).unwrap_or(b"")
    }
}

/// Whether the byte stands between the parts of a word.
pub(crate) fn is_blank(byte: u8) -> bool {
    matches!(byte, b' ' | b'\t' | b'\r')
}

/// The pieces of a text between these bytes, without the empty ones.
pub(crate) fn pieces_of(
    alloc: Global,
    text: &[u8],
    separators: &[u8],
) -> Result<Vec<Piece>, OutOfMemory> {
    let mut pieces = Vec::new(alloc);
    let mut begun = None;
    for (at, byte) in text.iter().enumerate() {
        if separators.contains(byte) {
            if let Some(start) = begun {
                pieces.push(Piece { start, end: at })?;
            }
            begun = None;
        } else if begun.is_none() {
            begun = Some(at);
        }
    }
    if let Some(start) = begun {
        pieces.push(Piece {
            start,
            end: text.len(),
        })?;
    }
    Ok(pieces)
}
