//! A line as it is shown: cut around a place, with a caret under it.
use crate::spans::Span;
use nv_base::OutOfMemory;
use unicode_width::UnicodeWidthChar;

// So many columns of a line are shown.
const COLUMNS: usize = 100;

// Of a longer line so many of them are before the place.
const BEFORE: usize = 40;

// How a byte or a character is shown.
#[derive(Clone, Copy)]
enum Form {
    // As it is.
    Plain,
    // As `\t` or `\r`.
    Letter(u8),
    // As `\x` and two digits.
    Hex,
}

// The bytes at a place that are shown as one, and the columns that they take.
#[derive(Clone, Copy)]
struct Glyph {
    length: usize,
    columns: usize,
    form: Form,
}

static ESCAPED: Glyph = Glyph {
    length: 1,
    columns: 4,
    form: Form::Hex,
};

// How many bytes a character has that begins with this one.
fn length_from(first: u8) -> usize {
    if first >= 0xf0 {
        4
    } else if first >= 0xe0 {
        3
    } else {
        2
    }
}

// A character that is not ASCII, where the bytes begin with one that takes columns.
fn wide_glyph(bytes: &[u8], length: usize) -> Option<Glyph> {
    let text = std::str::from_utf8(bytes.get(..length)?).ok()?;
    let columns = text.chars().next()?.width()?;
    if columns == 0 {
        return None;
    }
    Some(Glyph {
        length,
        columns,
        form: Form::Plain,
    })
}

fn letter(byte: u8) -> Glyph {
    Glyph {
        length: 1,
        columns: 2,
        form: Form::Letter(byte),
    }
}

// How the bytes that begin with this one are shown.
fn glyph_of(first: u8, bytes: &[u8]) -> Glyph {
    match first {
        b'\t' => letter(b't'),
        b'\r' => letter(b'r'),
        b' '..=b'~' => Glyph {
            length: 1,
            columns: 1,
            form: Form::Plain,
        },
        0x80..=0xff => wide_glyph(bytes, length_from(first)).unwrap_or(ESCAPED),
        _ => ESCAPED,
    }
}

fn put_digit(out: &mut Vec<u8>, digit: u8) -> Result<(), OutOfMemory> {
    let letters = b"0123456789abcdef";
    match letters.get(digit as usize) {
        Some(letter) => Ok(out.push(*letter)?),
        None => Ok(()),
    }
}

fn put_hex(out: &mut Vec<u8>, byte: u8) -> Result<(), OutOfMemory> {
    out.extend_from_slice(b"\\x")?;
    put_digit(out, byte / 16)?;
    put_digit(out, byte % 16)
}

fn put_glyph(out: &mut Vec<u8>, first: u8, bytes: &[u8], glyph: Glyph) -> Result<(), OutOfMemory> {
    match glyph.form {
        Form::Plain => Ok(out.extend_from_slice(bytes.get(..glyph.length).unwrap_or(b""))?),
        Form::Letter(letter) => {
            out.push(b'\\')?;
            Ok(out.push(letter)?)
        }
        Form::Hex => put_hex(out, first),
    }
}

// The columns of the bytes before a place.
fn columns_before(line: &[u8], place: usize) -> usize {
    let mut columns = 0usize;
    let mut next = 0usize;
    for (at, byte) in line.iter().enumerate() {
        if at >= place {
            break;
        }
        if at >= next {
            let glyph = glyph_of(*byte, line.get(at..).unwrap_or(b""));
            columns = columns.saturating_add(glyph.columns);
            next = at.saturating_add(glyph.length);
        }
    }
    columns
}

// Appends what begins in the columns from one to before another, and answers in which column it begins and whether anything is
// left.
fn put_columns(
    out: &mut Vec<u8>,
    line: &[u8],
    from: usize,
    to: usize,
) -> Result<(usize, bool), OutOfMemory> {
    let mut column = 0usize;
    let mut next = 0usize;
    let mut begun = None;
    for (at, byte) in line.iter().enumerate() {
        if column >= to {
            return Ok((begun.unwrap_or(column), true));
        }
        if at >= next {
            let bytes = line.get(at..).unwrap_or(b"");
            let glyph = glyph_of(*byte, bytes);
            if column >= from {
                begun = begun.or(Some(column));
                put_glyph(out, *byte, bytes, glyph)?;
            }
            column = column.saturating_add(glyph.columns);
            next = at.saturating_add(glyph.length);
        }
    }
    Ok((begun.unwrap_or(column), false))
}

/// Appends bytes as they are shown, and three dots in place of what is beyond so many columns.
pub fn put_shown(out: &mut Vec<u8>, bytes: &[u8], columns: usize) -> Result<(), OutOfMemory> {
    let (_, is_cut) = put_columns(out, bytes, 0, columns)?;
    if is_cut {
        out.extend_from_slice(b"...")?;
    }
    Ok(())
}

fn put_many(out: &mut Vec<u8>, byte: u8, count: usize) -> Result<(), OutOfMemory> {
    for _ in 0..count {
        out.push(byte)?;
    }
    Ok(())
}

// The first column that is shown, where the place is in this one.
fn first_column(line: &[u8], place: usize, column: usize) -> usize {
    let end = line.len().min(place.saturating_add(COLUMNS));
    if end == line.len() && columns_before(line, end) <= COLUMNS {
        0
    } else {
        column.saturating_sub(BEFORE)
    }
}

// Appends a part of a line, and answers how many columns are before a column of it.
fn put_cut(
    out: &mut Vec<u8>,
    line: &[u8],
    from: usize,
    column: usize,
) -> Result<usize, OutOfMemory> {
    if from > 0 {
        out.extend_from_slice(b"...")?;
    }
    let (begun, is_cut) = put_columns(out, line, from, from.saturating_add(COLUMNS))?;
    if is_cut {
        out.extend_from_slice(b"...")?;
    }
    let dots = if from > 0 { 3 } else { 0usize };
    Ok(dots.saturating_add(column.saturating_sub(begun)))
}

/// Appends a line, cut around the bytes that are marked where it is long, and below it a caret under the first of them.
pub fn put_excerpt(out: &mut Vec<u8>, line: &[u8], mark: Option<Span>) -> Result<(), OutOfMemory> {
    let Some(mark) = mark else {
        out.extend_from_slice(b"    ")?;
        put_shown(out, line, COLUMNS)?;
        out.push(b'\n')?;
        return Ok(());
    };
    let column = columns_before(line, mark.start);
    let from = first_column(line, mark.start, column);
    out.extend_from_slice(b"    ")?;
    let before = put_cut(out, line, from, column)?;
    let last = columns_before(line, mark.end).min(from.saturating_add(COLUMNS));
    put_caret(out, before, last.saturating_sub(column))
}

// Appends a caret after so many columns, and a line under the others that are marked.
fn put_caret(out: &mut Vec<u8>, before: usize, marked: usize) -> Result<(), OutOfMemory> {
    out.extend_from_slice(b"\n    ")?;
    put_many(out, b' ', before)?;
    out.push(b'^')?;
    put_many(out, b'~', marked.saturating_sub(1))?;
    out.push(b'\n')?;
    Ok(())
}
