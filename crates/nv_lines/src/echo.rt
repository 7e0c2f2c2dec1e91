//! A line before its reply.
use nv_base::{OutOfMemory, put_dec};
use nv_excerpt::put_shown;

// Of a line with more bytes, which no program runs, only the beginning is shown.
const LINE_LIMIT: usize = 65_536;

// So many columns of it.
const COLUMNS: usize = 100;

/// Appends a line of a script as it is shown before its reply (not from OVN): its number, a colon, a space, and its bytes without the
/// blanks at its end, with `\t`, `\x1b` and the like for what is not seen, as in `12: lsp-add sw0 p1`; then a newline. No reply begins
/// with a number and a colon but of a connection or a neighbour of an object that is named so. A line that has no reply is not to be
/// shown.
pub fn put_command(out: &mut Vec<u8>, number: u64, line: &[u8]) -> Result<(), OutOfMemory> {
    put_dec(out, u128::from(number))?;
    out.extend_from_slice(b": ")?;
    put_shown(out, line.trim_ascii_end(), columns_of(line))?;
    out.push(b'\n')?;
    Ok(())
}

// How many columns of a line are shown: all, where it can be run.
fn columns_of(line: &[u8]) -> usize {
    if line.len() > LINE_LIMIT {
        COLUMNS
    } else {
        usize::MAX
    }
}
