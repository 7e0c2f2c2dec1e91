//! Where a line says what is warned of.
use nv_base::OutOfMemory;
use nv_excerpt::{Span, spans_of};
use std::alloc::Global;

fn is_quote(byte: u8) -> bool {
    matches!(byte, b'\'' | b'"')
}

// The bytes of a word without the quotes around it.
fn unquoted(raw: &[u8]) -> &[u8] {
    match raw {
        [first, inner @ .., last] if is_quote(*first) && first == last => inner,
        _ => raw,
    }
}

/// The word that begins so, of the command of this name whose first word is this one: the last such word of the line. Where nothing is
/// wanted it is the first word itself.
pub(crate) fn word_of(
    alloc: Global,
    line: &[u8],
    command: &[u8],
    first: &[u8],
    wanted: &[u8],
) -> Result<Option<Span>, OutOfMemory> {
    let spans = spans_of(alloc, line)?;
    let mut found = None;
    // How many words of the command were met: its name, and its first word.
    let mut met = 0u8;
    for span in &spans {
        let text = unquoted(span.raw(line));
        let is_it = if wanted.is_empty() {
            met == 1 && text == first
        } else {
            met == 2 && text.starts_with(wanted)
        };
        if is_it {
            found = Some(*span);
        }
        met = met_after(met, text, command, first);
    }
    Ok(found)
}

// How many words of the command were met after one more.
fn met_after(met: u8, text: &[u8], command: &[u8], first: &[u8]) -> u8 {
    if text == b"--".as_slice() {
        0
    } else if met == 2 || (met == 1 && text == first) {
        2
    } else if text == command {
        1
    } else {
        0
    }
}

// Whether a name may go on with this byte.
fn goes_on(byte: u8) -> bool {
    byte.is_ascii_alphanumeric() || matches!(byte, b'_' | b'.' | b'-')
}

fn is_name_here(rest: &[u8], name: &[u8]) -> bool {
    match rest.strip_prefix(name) {
        Some([]) => true,
        Some([byte, ..]) => !goes_on(*byte),
        None => false,
    }
}

/// The first place of a line at which a name stands after this sign.
pub(crate) fn name_after(line: &[u8], sign: u8, name: &[u8]) -> Option<Span> {
    for (at, byte) in line.iter().enumerate() {
        let start = at.saturating_add(1);
        if *byte == sign && is_name_here(line.get(start..).unwrap_or(b""), name) {
            return Some(Span {
                start,
                end: start.saturating_add(name.len()),
            });
        }
    }
    None
}
