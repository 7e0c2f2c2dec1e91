//! An object as it is told: what it is, its number, and its name.
use nv_base::{Name, ObjId, OutOfMemory, put_dec};

/// Appends the number of an object, and its name in parentheses.
pub(crate) fn put_named(out: &mut Vec<u8>, number: ObjId, name: &Name) -> Result<(), OutOfMemory> {
    put_dec(out, u128::from(number.0))?;
    out.extend_from_slice(b" (")?;
    out.extend_from_slice(name.as_slice())?;
    out.push(b')')?;
    Ok(())
}

/// Appends the first line of an object that has a name.
pub(crate) fn put_heading(
    out: &mut Vec<u8>,
    kind: &[u8],
    number: ObjId,
    name: &Name,
) -> Result<(), OutOfMemory> {
    out.extend_from_slice(kind)?;
    put_named(out, number, name)?;
    out.push(b'\n')?;
    Ok(())
}

/// Appends what a line is about, in brackets: the kind of the object and its number.
pub(crate) fn put_number(out: &mut Vec<u8>, kind: &[u8], number: ObjId) -> Result<(), OutOfMemory> {
    out.extend_from_slice(b" [")?;
    out.extend_from_slice(kind)?;
    put_dec(out, u128::from(number.0))?;
    Ok(())
}

/// Appends the line of the state of a port.
pub(crate) fn put_state(out: &mut Vec<u8>, enabled: bool) -> Result<(), OutOfMemory> {
    if enabled {
        out.extend_from_slice(b"        state: enabled\n")?;
    } else {
        out.extend_from_slice(b"        state: disabled\n")?;
    }
    Ok(())
}

/// Appends what stands between the items of a list: nothing before the first one.
pub(crate) fn put_comma(out: &mut Vec<u8>, is_first: bool) -> Result<(), OutOfMemory> {
    if !is_first {
        out.extend_from_slice(b", ")?;
    }
    Ok(())
}
