//! Names that are nearly those of commands or fields.
use crate::fields::meant;
use nb_cmds::Task;
use nv_base::{Field, OutOfMemory};
use std::alloc::Global;
use strsim::levenshtein;

// Words of more bytes are compared with no name.
const LONGEST: usize = 24;

// A name is near that comes from another one by so many edits.
const EDITS: usize = 2;

// How many edits lead from a word to a name, where they are few enough.
fn edits_to(alloc: Global, word: &str, name: &str) -> Result<Option<usize>, OutOfMemory> {
    let edits = levenshtein(alloc, word, name)?;
    Ok(if edits <= EDITS && edits < name.len() {
        Some(edits)
    } else {
        None
    })
}

// The nearer one of a name that was found and another name.
fn nearer(
    alloc: Global,
    word: &str,
    found: Option<(&'static str, usize)>,
    name: &'static str,
) -> Result<Option<(&'static str, usize)>, OutOfMemory> {
    Ok(match (found, edits_to(alloc, word, name)?) {
        (None, Some(edits)) => Some((name, edits)),
        (Some((_, least)), Some(edits)) if edits < least => Some((name, edits)),
        _ => found,
    })
}

// The word as text, where it is short enough for a name.
fn short_text(word: &[u8]) -> Option<&str> {
    if word.len() <= LONGEST {
        std::str::from_utf8(word).ok()
    } else {
        None
    }
}

/// The name of a command or query that the word nearly is.
pub(crate) fn near_command(
    alloc: Global,
    word: &[u8],
) -> Result<Option<&'static str>, OutOfMemory> {
    let Some(word) = short_text(word) else {
        return Ok(None);
    };
    let mut found = None;
    for task in Task::all() {
        found = nearer(alloc, word, found, task.name())?;
    }
    Ok(found.map(|(name, _)| name))
}

/// The name of a field that the word nearly is, or that is meant by it.
pub(crate) fn near_field(alloc: Global, word: &[u8]) -> Result<Option<&'static str>, OutOfMemory> {
    if let Some(name) = meant(word) {
        return Ok(Some(name));
    }
    let Some(word) = short_text(word) else {
        return Ok(None);
    };
    let mut found = None;
    for field in Field::all() {
        found = nearer(alloc, word, found, field.name())?;
    }
    Ok(found.map(|(name, _)| name))
}
