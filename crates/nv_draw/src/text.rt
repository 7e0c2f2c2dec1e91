//! Texts within a graph.
use nb_store::Records;
use nv_base::{ObjId, OutOfMemory, put_dec};

/// Appends a text as it stands in an HTML-like label (Graphviz, 'Node Shapes').
pub(crate) fn put_html(out: &mut Vec<u8>, text: &[u8]) -> Result<(), OutOfMemory> {
    for byte in text {
        match byte {
            b'&' => out.extend_from_slice(b"&amp;")?,
            b'<' => out.extend_from_slice(b"&lt;")?,
            b'>' => out.extend_from_slice(b"&gt;")?,
            b'"' => out.extend_from_slice(b"&quot;")?,
            byte => out.push(*byte)?,
        }
    }
    Ok(())
}

/// Appends a text as it stands in a quoted string of DOT.
pub(crate) fn put_escaped(out: &mut Vec<u8>, text: &[u8]) -> Result<(), OutOfMemory> {
    for byte in text {
        match byte {
            b'"' => out.extend_from_slice(b"\\\"")?,
            b'\\' => out.extend_from_slice(b"\\\\")?,
            byte => out.push(*byte)?,
        }
    }
    Ok(())
}

/// Appends the name of a node or of a port of one: a letter and the number of the object.
pub(crate) fn put_node(out: &mut Vec<u8>, letter: u8, number: ObjId) -> Result<(), OutOfMemory> {
    out.push(letter)?;
    put_dec(out, u128::from(number.0))?;
    Ok(())
}

/// A side of a box. Switches stand left of routers: what leads from one to the other leads from a switch's right side to a router's left.
#[derive(Clone, Copy)]
pub(crate) enum Side {
    /// The side of the other kind of boxes.
    Link,
    /// The side of hosts, of what is in a box, and of notes.
    Own,
}

/// Appends the place of a port: the node of its datapath, its cell there, and the side of that.
pub(crate) fn put_place(
    out: &mut Vec<u8>,
    records: &Records,
    dp: ObjId,
    port: ObjId,
    side: Side,
) -> Result<(), OutOfMemory> {
    put_node(out, b'd', dp)?;
    out.push(b':')?;
    put_node(out, b'p', port)?;
    let is_right = match side {
        Side::Link => is_switch(records, dp),
        Side::Own => !is_switch(records, dp),
    };
    out.extend_from_slice(if is_right { b":e" } else { b":w" })?;
    Ok(())
}

/// Whether a datapath is a switch, and so stands on the left.
pub(crate) fn is_switch(records: &Records, dp: ObjId) -> bool {
    records.switches().get(dp).is_some()
}
