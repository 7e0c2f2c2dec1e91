//! Where words stand in their line.
use nv_base::OutOfMemory;
use std::alloc::Global;

/// Bytes of a line, from a place to before another.
#[derive(Clone, Copy)]
pub struct Span {
    pub start: usize,
    pub end: usize,
}

fn is_separator(byte: u8) -> bool {
    matches!(byte, b' ' | b'\t' | b'\r')
}

fn is_quote(byte: u8) -> bool {
    matches!(byte, b'\'' | b'"')
}

// The quote that is open after a byte, where this one was before it.
fn quote_after(quote: Option<u8>, byte: u8) -> Option<u8> {
    match quote {
        Some(open) => { if byte == open { None } else { quote } }
        None => { if is_quote(byte) { Some(byte) } else { None } }
    }
}

/// Where the words of a line stand, their quotes among them. A quote that is left open ends with the line.
pub fn spans_of(alloc: Global, line: &[u8]) -> Result<Vec<Span>, OutOfMemory> {
    let mut spans = Vec::new(alloc);
    let mut begun = None;
    let mut quote = None;
    for (at, byte) in line.iter().enumerate() {
        let is_between = quote.is_none() && is_separator(*byte);
        if is_between {
            if let Some(start) = begun {
                spans.push(Span { start, end: at })?;
            }
            begun = None;
        } else if begun.is_none() {
            begun = Some(at);
        }
        quote = quote_after(quote, *byte);
    }
    if let Some(start) = begun {
        spans.push(Span {
            start,
            end: line.len(),
        })?;
    }
    Ok(spans)
}

impl Span {
    /// The span of one byte.
    pub fn of_byte(at: usize) -> Span {
        Span {
            start: at,
            end: at.saturating_add(1),
        }
    }

    /// Its bytes of the line.
    pub fn raw<'l>(&self, line: &'l [u8]) -> &'l [u8] {
        line.get(self.start..self.end).unwrap_or(b"")
    }

    /// The place in the line of a byte of the word, as it is without its quotes. At the end of the word it is that of the quote that
    /// ends it, or that after it.
    pub fn place_of(&self, line: &[u8], offset: usize) -> usize {
        let raw = self.raw(line);
        let mut quote = None;
        let mut left = offset;
        for (at, byte) in raw.iter().enumerate() {
            let next = quote_after(quote, *byte);
            if next.is_some() == quote.is_some() {
                if left == 0 {
                    return self.start.saturating_add(at);
                }
                left = left.saturating_sub(1);
            }
            quote = next;
        }
        match raw.last() {
            Some(byte) if is_quote(*byte) => self.end.saturating_sub(1),
            _ => self.end,
        }
    }
}
