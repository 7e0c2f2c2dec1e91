//! The ends of a packet's way.
use crate::text::{Side, is_switch, put_place};
use nb_store::Records;
use net_meaning::Cause;
use nv_base::{ObjId, OutOfMemory, put_dec};

/// How the way of a packet or of a copy ends.
#[derive(Clone, Copy)]
pub(crate) enum End {
    /// It goes out by a port to a host.
    Output,
    Drop(Cause),
    /// It is answered by a packet that rejects it, or by none.
    Reject,
    /// It would take one hop too many.
    HopLimit,
}

impl End {
    /// The colour of its edge and of its node, as a quoted string.
    fn colour(self) -> &'static [u8] {
        match self {
            End::Output => b"\"#1f6f3f\"",
            End::Drop(_) | End::Reject | End::HopLimit => b"red",
        }
    }
}

/// Appends the node of an end, and the edge to it from a port: both have the number of the edge.
pub(crate) fn put_end(
    out: &mut Vec<u8>,
    records: &Records,
    dp: ObjId,
    port: ObjId,
    number: usize,
    end: End,
) -> Result<(), OutOfMemory> {
    out.extend_from_slice(b"    ")?;
    put_name(out, number)?;
    put_style(out, end)?;
    out.extend_from_slice(b"    ")?;
    // The node stands on the side of hosts: left of a switch, and right of a router.
    let is_left = is_switch(records, dp);
    if is_left {
        put_name(out, number)?;
        out.extend_from_slice(b" -> ")?;
    }
    put_place(out, records, dp, port, Side::Own)?;
    if !is_left {
        out.extend_from_slice(b" -> ")?;
        put_name(out, number)?;
    }
    out.extend_from_slice(if is_left {
        b" [dir=back, color="
    } else {
        b" [color="
    })?;
    out.extend_from_slice(end.colour())?;
    out.extend_from_slice(b", fontcolor=")?;
    out.extend_from_slice(end.colour())?;
    out.extend_from_slice(b", penwidth=2, label=\"")?;
    put_dec(out, number as u128)?;
    out.extend_from_slice(b"\"];\n")?;
    Ok(())
}

fn put_name(out: &mut Vec<u8>, number: usize) -> Result<(), OutOfMemory> {
    out.push(b'e')?;
    put_dec(out, number as u128)?;
    Ok(())
}

fn put_style(out: &mut Vec<u8>, end: End) -> Result<(), OutOfMemory> {
    let shape: &[u8] = match end {
        End::Output => b" [shape=ellipse, color=",
        End::Drop(_) | End::Reject | End::HopLimit => b" [shape=octagon, color=",
    };
    out.extend_from_slice(shape)?;
    out.extend_from_slice(end.colour())?;
    out.extend_from_slice(b", fontcolor=")?;
    out.extend_from_slice(end.colour())?;
    out.extend_from_slice(b", label=\"")?;
    match end {
        End::Output => out.extend_from_slice(b"output")?,
        End::Drop(cause) => {
            out.extend_from_slice(b"dropped\\n")?;
            out.extend_from_slice(cause.name().as_bytes())?;
        }
        End::Reject => out.extend_from_slice(b"rejected")?,
        End::HopLimit => out.extend_from_slice(b"out of hops")?,
    }
    out.extend_from_slice(b"\"];\n")?;
    Ok(())
}
