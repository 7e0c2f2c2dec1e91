//! Texts in columns.
use nv_base::OutOfMemory;

// Appends so many spaces.
fn put_spaces(out: &mut Vec<u8>, count: usize) -> Result<(), OutOfMemory> {
    for _ in 0..count {
        out.push(b' ')?;
    }
    Ok(())
}

/// Appends a text that ends at the right of a column of this width.
pub(crate) fn put_right(out: &mut Vec<u8>, width: usize, text: &[u8]) -> Result<(), OutOfMemory> {
    put_spaces(out, width.saturating_sub(text.len()))?;
    out.extend_from_slice(text)?;
    Ok(())
}

/// Fills a column of this width that begins at this place of the text, and leaves a space after it.
pub(crate) fn fill(out: &mut Vec<u8>, start: usize, width: usize) -> Result<(), OutOfMemory> {
    let written = out.len().saturating_sub(start);
    put_spaces(out, width.saturating_sub(written))?;
    out.push(b' ')?;
    Ok(())
}
