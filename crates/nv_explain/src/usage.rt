//! The forms of commands and of queries.
use crate::sentences::{DATAPATH, OBJECT_NAME, PLACES, QUERIES, SET_NAME};
use nb_cmds::Question;
use nb_edit::{Flag, Place, Tail, Verb};
use nv_base::OutOfMemory;

/// Appends a text.
pub(crate) fn put(out: &mut Vec<u8>, text: &str) -> Result<(), OutOfMemory> {
    Ok(out.extend_from_slice(text.as_bytes())?)
}

// The word that stands at a place, and what it is.
fn row_of(place: Place) -> (&'static str, &'static str) {
    match PLACES.get(place as usize) {
        Some(row) => *row,
        None => ("WORD", "a word"),
    }
}

fn put_place(out: &mut Vec<u8>, place: Place) -> Result<(), OutOfMemory> {
    put(out, " ")?;
    put(out, row_of(place).0)
}

fn put_flag(out: &mut Vec<u8>, flag: Flag) -> Result<(), OutOfMemory> {
    put(
        out,
        match flag {
            Flag::MayExist => "[--may-exist] ",
            Flag::IfExists => "[--if-exists] ",
            Flag::Policy => "[--policy=dst-ip|src-ip] ",
            Flag::OwnerType => "[--type=switch|port-group] ",
        },
    )
}

// A place that may be left out, with what may follow it.
fn put_optional(
    out: &mut Vec<u8>,
    place: Place,
    inner: &[Place],
    end: &str,
) -> Result<(), OutOfMemory> {
    put(out, " [")?;
    put(out, row_of(place).0)?;
    if !inner.is_empty() {
        put(out, " [")?;
        put_inner(out, inner)?;
        put(out, "]")?;
    }
    put(out, end)
}

fn put_inner(out: &mut Vec<u8>, inner: &[Place]) -> Result<(), OutOfMemory> {
    let mut space = "";
    for place in inner {
        put(out, space)?;
        put(out, row_of(*place).0)?;
        space = " ";
    }
    Ok(())
}

fn put_tail(out: &mut Vec<u8>, tail: Tail) -> Result<(), OutOfMemory> {
    match tail {
        Tail::Ends => Ok(()),
        Tail::May(first) => put_optional(out, first, &[], "]"),
        Tail::MayThen(first, second) => put_optional(out, first, &[second], "]"),
        Tail::MayThenBoth(first, second, third) => {
            put_optional(out, first, &[second, third], "]")
        }
        Tail::Repeats(first) => put_optional(out, first, &[], "]..."),
    }
}

/// Appends the form of a command: its options, its name and its words.
pub(crate) fn put_form(out: &mut Vec<u8>, verb: Verb) -> Result<(), OutOfMemory> {
    let form = verb.form();
    for flag in form.flags {
        put_flag(out, *flag)?;
    }
    put(out, form.name)?;
    for place in form.places {
        put_place(out, *place)?;
    }
    put_tail(out, form.tail)
}

/// Appends the form of a query.
pub(crate) fn put_query(out: &mut Vec<u8>, question: Question) -> Result<(), OutOfMemory> {
    put(out, QUERIES.get(question as usize).copied().unwrap_or(""))
}

/// Appends what stands at a place: its word in the form of the command, and what it is.
pub(crate) fn put_what(out: &mut Vec<u8>, place: Place) -> Result<(), OutOfMemory> {
    let (word, what) = row_of(place);
    put(out, word)?;
    put(out, ", ")?;
    put(out, what)?;
    put_name_rule(out, place)
}

// What a name at this place is made of.
fn put_name_rule(out: &mut Vec<u8>, place: Place) -> Result<(), OutOfMemory> {
    match place {
        Place::Switch | Place::Router | Place::Port | Place::Lb | Place::Owner => {
            put(out, ": ")?;
            put(out, OBJECT_NAME)
        }
        Place::Set | Place::Group => {
            put(out, ": ")?;
            put(out, SET_NAME)
        }
        _ => Ok(()),
    }
}

/// Appends what the datapath of a query is.
pub(crate) fn put_datapath(out: &mut Vec<u8>) -> Result<(), OutOfMemory> {
    put(out, DATAPATH)?;
    put(out, ": ")?;
    put(out, OBJECT_NAME)
}
