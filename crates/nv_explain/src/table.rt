//! What is said of refusals, as the tables of a page in Markdown.
ghost use Rattle.std.specs.Prelude.{◌≡◌, OnOk, OnErr};
ghost use Rattle.nv_base.specs.Growth.{GrowsAtEnd};

use crate::sentences::{CAUSES, Code, KINDS, PLACES, RULES, SENTENCES, SLIPS, Sentence, WANTED};
use crate::usage::put;
use nv_base::OutOfMemory;
use nv_parts::{address_reasons, mac_reasons};
use nv_pasted::{NamedHint, TableHint, named_hints, option_hints, shell_hints, table_hints};
use std::alloc::Global;

/// Appends the tables of the sentences, of the rules, and of the slips with their hints, in Markdown. After `OutOfMemory` the bytes
/// are as before.
pub fn put_tables(alloc: Global, out: &mut Vec<u8>) -> Result<(), OutOfMemory>
    ensures ok { OnOk result (GrowsAtEnd out.old.items out.new.items) }
    ensures err { OnErr result (out.new.items ≡ out.old.items) }
{
    let text = tables(alloc)?;
    out.extend_from_slice(&text)?;
    Ok(())
}

fn tables(alloc: Global) -> Result<Vec<u8>, OutOfMemory> {
    let mut text = Vec::new(alloc);
    put_sentences(&mut text)?;
    put_rules(&mut text)?;
    put_kinds(&mut text)?;
    put_wanted(&mut text)?;
    put_places(&mut text)?;
    put_slips(&mut text)?;
    put_pasted(&mut text)?;
    Ok(text)
}

// A text of a cell, in which `|` is escaped.
fn put_cell(out: &mut Vec<u8>, text: &str) -> Result<(), OutOfMemory> {
    for byte in text.as_bytes() {
        if *byte == b'|' {
            out.push(b'\\')?;
        }
        out.push(*byte)?;
    }
    Ok(())
}

// A text of a cell that begins a sentence.
fn put_begun(out: &mut Vec<u8>, text: &str) -> Result<(), OutOfMemory> {
    let start = out.len();
    put_cell(out, text)?;
    if let Some(first) = out.get_mut(start) {
        *first = first.to_ascii_uppercase();
    }
    Ok(())
}

fn put_sentences(out: &mut Vec<u8>) -> Result<(), OutOfMemory> {
    put(out, "| Reply | Exactly where |\n|---|---|\n")?;
    for sentence in &SENTENCES {
        put(out, "| `")?;
        put(out, sentence.form)?;
        put(out, "` | ")?;
        put_says(out, sentence)?;
        put(out, ". |\n")?;
    }
    Ok(())
}

fn put_says(out: &mut Vec<u8>, sentence: &Sentence) -> Result<(), OutOfMemory> {
    match sentence.code {
        Code::WrongWords => put_causes(out, &CAUSES),
        Code::BadMac => put_causes(out, mac_reasons()),
        Code::BadAddress => put_causes(out, address_reasons()),
        _ => {
            put_begun(out, sentence.says)?;
            put_page(out, sentence.page)
        }
    }
}

// The page that tells more, where there is one.
fn put_page(out: &mut Vec<u8>, page: &str) -> Result<(), OutOfMemory> {
    if page.is_empty() {
        return Ok(());
    }
    put(out, " ([")?;
    put(out, page)?;
    put(out, "](")?;
    put(out, page)?;
    put(out, ".md))")
}

// All causes of a code.
fn put_causes(out: &mut Vec<u8>, causes: &[&str]) -> Result<(), OutOfMemory> {
    let mut is_first = true;
    for cause in causes {
        if is_first {
            put_begun(out, cause)?;
        } else {
            put(out, "; or ")?;
            put(out, cause)?;
        }
        is_first = false;
    }
    Ok(())
}

fn put_row(out: &mut Vec<u8>, first: &str, second: &str) -> Result<(), OutOfMemory> {
    put(out, "| ")?;
    put_cell(out, first)?;
    put(out, " | ")?;
    put_begun(out, second)?;
    put(out, ". |\n")
}

fn put_rules(out: &mut Vec<u8>) -> Result<(), OutOfMemory> {
    put(
        out,
        "\n| RULE of `E13` and `E17` | Broken where |\n|---|---|\n",
    )?;
    for (name, text) in &RULES {
        put_row(out, name, text)?;
    }
    Ok(())
}

fn put_kinds(out: &mut Vec<u8>) -> Result<(), OutOfMemory> {
    put(out, "\n| KIND of `E16` | What is counted |\n|---|---|\n")?;
    for (kind, text) in &KINDS {
        put_row(out, kind, text)?;
    }
    Ok(())
}

fn put_places(out: &mut Vec<u8>) -> Result<(), OutOfMemory> {
    put(
        out,
        "\n| Word of a command's form | What it is |\n|---|---|\n",
    )?;
    for (word, text) in &PLACES {
        put_row(out, word, text)?;
    }
    Ok(())
}

fn put_wanted(out: &mut Vec<u8>) -> Result<(), OutOfMemory> {
    put(out, "\nWhat may stand at PLACE of `E12` is one of:\n\n")?;
    for text in &WANTED {
        put(out, "- ")?;
        put(out, text)?;
        put(out, "\n")?;
    }
    Ok(())
}

fn put_slips(out: &mut Vec<u8>) -> Result<(), OutOfMemory> {
    put(out, "\n| A slip such as | Hint |\n|---|---|\n")?;
    for (slip, hint) in &SLIPS {
        put_row(out, slip, hint)?;
    }
    for row in shell_hints() {
        put_row(out, row.name, row.hint)?;
    }
    Ok(())
}

fn put_pasted(out: &mut Vec<u8>) -> Result<(), OutOfMemory> {
    put(out, "\n| Pasted | Hint |\n|---|---|\n")?;
    put_named(out, named_hints())?;
    for row in table_hints() {
        put_table_hint(out, row)?;
    }
    put_named(out, option_hints())
}

fn put_named(out: &mut Vec<u8>, rows: &[NamedHint]) -> Result<(), OutOfMemory> {
    for row in rows {
        put(out, "| `")?;
        put_cell(out, row.name)?;
        put(out, "` | ")?;
        put_begun(out, row.hint)?;
        put(out, ". |\n")?;
    }
    Ok(())
}

// A command, its table and its column, with dots for those that are not told.
fn put_table_hint(out: &mut Vec<u8>, row: &TableHint) -> Result<(), OutOfMemory> {
    put(out, "| `")?;
    put(out, row.command)?;
    put(out, " ")?;
    put(
        out,
        if row.table.is_empty() {
            ".."
        } else {
            row.table
        },
    )?;
    if !row.column.is_empty() {
        put(out, " .. ")?;
        put(out, row.column)?;
    }
    put(out, "` | ")?;
    put_begun(out, row.hint)?;
    put(out, ". |\n")
}
