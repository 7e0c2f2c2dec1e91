//! An explanation of a refused line.
ghost use Rattle.std.specs.Prelude.{◌≡◌, OnOk, OnErr};
ghost use Rattle.nv_base.specs.Growth.{GrowsAtEnd};

use crate::case::{Case, match_text, task_in};
use crate::fields::name_at;
use crate::marks::{mark_of, place_wanted};
use crate::near::{near_command, near_field};
use crate::part::reason_of;
use crate::pasted::pasted_hint;
use crate::place::verb_in;
use crate::sentences::{CAUSES, Cause, Code, KINDS, RULES, SLIPS, WANTED};
use crate::slips::slip_of;
use crate::told::{Told, told_by};
use crate::usage::{put, put_datapath, put_form, put_query, put_what};
use crate::wanted::wanted_at;
use crate::wrong::wrong_words;
use nb_cmds::Task;
use nb_store::Records;
use nb_text::put_switch_acl;
use nb_words::{Command, LineFault, Word, read_commands, words_of};
use nv_base::{Items, ObjId, OutOfMemory, put_dec};
use nv_excerpt::{Span, put_excerpt, put_shown, spans_of};
use std::alloc::Global;

// Of a word that is told so many columns are shown.
const COLUMNS: usize = 40;

/// Where a line stands.
#[derive(Clone, Copy)]
pub struct Source<'s> {
    /// The name of its script.
    pub name: &'s [u8],
    /// The number of the line, from 1.
    pub number: u64,
    /// Its bytes, without its newline.
    pub line: &'s [u8],
}

/// Appends why a line is refused (not from OVN): where it stands, its refusal as in the reply, a sentence, and what is wanted at the
/// place; then the line, cut around the place where it is long, a caret under the place and, for a slip that is known, a hint. The
/// records are those of the network that the line was run in. Of a reply that is no refusal nothing is appended. After `OutOfMemory`
/// the bytes are as before.
pub fn put_explanation(
    alloc: Global,
    out: &mut Vec<u8>,
    source: Source,
    reply: &[u8],
    records: &Records,
) -> Result<(), OutOfMemory>
    ensures ok { OnOk result (GrowsAtEnd out.old.items out.new.items) }
    ensures err { OnErr result (out.new.items ≡ out.old.items) }
{
    let text = explained(alloc, source, reply, records)?;
    out.extend_from_slice(&text)?;
    Ok(())
}

// The explanation.
fn explained(
    alloc: Global,
    source: Source,
    reply: &[u8],
    records: &Records,
) -> Result<Vec<u8>, OutOfMemory> {
    let mut text = Vec::new(alloc);
    if let Some(told) = told_by(reply) {
        put_refused(alloc, &mut text, source, told, records)?;
    }
    Ok(text)
}

// The commands of a line, none where it has none that can be told.
fn commands_of(alloc: Global, line: &[u8]) -> Result<Items<Command>, OutOfMemory> {
    match read_commands(alloc, line) {
        Ok(commands) => Ok(commands),
        Err(LineFault::Refused(_)) => Ok(Items::new(alloc)),
        Err(LineFault::Memory) => Err(OutOfMemory),
    }
}

// The part of a line that may have words: of one that is too long or no text, none.
fn readable_part<'l>(told: &Told, line: &'l [u8]) -> &'l [u8] {
    match told.code() {
        Code::NotUtf8 | Code::LineTooLong => b"",
        _ => line,
    }
}

// Explains a refusal.
fn put_refused(
    alloc: Global,
    out: &mut Vec<u8>,
    source: Source,
    told: Told,
    records: &Records,
) -> Result<(), OutOfMemory> {
    let part = readable_part(&told, source.line);
    let spans = spans_of(alloc, part)?;
    let words = words_in(alloc, part)?;
    let commands = commands_of(alloc, part)?;
    let case = Case {
        line: source.line,
        told,
        spans: &spans,
        words: words.as_slice(),
        commands: commands.as_slice(),
        records,
    };
    put_heading(out, source, told)?;
    put_case(alloc, out, &case)
}

// The words of a line, none where a quote is open.
fn words_in(alloc: Global, line: &[u8]) -> Result<Items<Word>, OutOfMemory> {
    match words_of(alloc, line)? {
        Some(words) => Ok(words),
        None => Ok(Items::new(alloc)),
    }
}

// Where the line stands, and its refusal.
fn put_heading(out: &mut Vec<u8>, source: Source, told: Told) -> Result<(), OutOfMemory> {
    out.extend_from_slice(source.name)?;
    out.push(b':')?;
    put_dec(out, u128::from(source.number))?;
    out.extend_from_slice(b": refused ")?;
    out.extend_from_slice(told.text)?;
    out.extend_from_slice(b": ")?;
    Ok(())
}

// The sentence, the line and the hint.
fn put_case(alloc: Global, out: &mut Vec<u8>, case: &Case) -> Result<(), OutOfMemory> {
    let command = case.command(alloc)?;
    let cause = cause_of(case, command);
    put_sentence(alloc, out, case, command, cause)?;
    put_wanted(alloc, out, case, command, cause)?;
    out.push(b'\n')?;
    put_excerpt(out, case.line, mark_of(alloc, case, command, cause)?)?;
    put_hint(alloc, out, case, command, cause)
}

// Why the words are wrong, where they are.
fn cause_of(case: &Case, command: Option<&Command>) -> Option<Cause> {
    match case.told.code() {
        Code::WrongWords => Some(wrong_words(case, command).cause),
        _ => None,
    }
}

// The sentence of the code or, where words are wrong, of the cause.
fn put_sentence(
    alloc: Global,
    out: &mut Vec<u8>,
    case: &Case,
    command: Option<&Command>,
    cause: Option<Cause>,
) -> Result<(), OutOfMemory> {
    match cause {
        Some(cause) => {
            let number = wrong_words(case, command).number;
            let says = CAUSES.get(cause as usize).copied().unwrap_or("");
            put_filled(out, case, says, number)
        }
        None => {
            let says = sentence_of(alloc, case, command)?;
            put_filled(out, case, says, case.told.number())
        }
    }
}

// The sentence of the code or, of a word that has no MAC or no address, of the reason.
fn sentence_of(
    alloc: Global,
    case: &Case,
    command: Option<&Command>,
) -> Result<&'static str, OutOfMemory> {
    match case.told.code() {
        Code::BadMac | Code::BadAddress => reason_of(alloc, case, command),
        _ => Ok(case.told.sentence.says),
    }
}

// A sentence, with the words of the reply and the word of this number.
fn put_filled(
    out: &mut Vec<u8>,
    case: &Case,
    sentence: &str,
    number: usize,
) -> Result<(), OutOfMemory> {
    for (place, word) in sentence.split(' ').enumerate() {
        if place > 0 {
            put(out, " ")?;
        }
        put_or_fill(out, case, word, number)?;
    }
    Ok(())
}

// The place of a word among those of the form, where it stands for a word of the reply.
fn place_in_form(form: &str, word: &str) -> Option<usize> {
    let place = form.split(' ').position(|other| other == word)?;
    if place < 2 { None } else { Some(place) }
}

fn put_or_fill(
    out: &mut Vec<u8>,
    case: &Case,
    word: &str,
    number: usize,
) -> Result<(), OutOfMemory> {
    if word == "W" {
        return put_word(out, case, number);
    }
    match place_in_form(case.told.sentence.form, word) {
        Some(place) => put_told(out, case, place),
        None => put(out, word),
    }
}

// The number of a word, and its text as it stands in the line.
fn put_word(out: &mut Vec<u8>, case: &Case, number: usize) -> Result<(), OutOfMemory> {
    put_dec(out, number as u128)?;
    out.extend_from_slice(b", ")?;
    if let Some(span) = case.span(number) {
        put_shown(out, span.raw(case.line), COLUMNS)?;
    }
    out.push(b',')?;
    Ok(())
}

// A word of the reply. The last one of the form stands for all that are left.
fn put_told(out: &mut Vec<u8>, case: &Case, place: usize) -> Result<(), OutOfMemory> {
    let words = case.told.sentence.form.split(' ').count();
    out.extend_from_slice(case.told.word(place))?;
    let next = place.saturating_add(1);
    if next == words {
        for more in case.told.text.split(|byte| *byte == b' ').skip(next) {
            out.push(b' ')?;
            out.extend_from_slice(more)?;
        }
    }
    Ok(())
}

// The row of a table that has this name.
fn row_named(rows: &'static [(&'static str, &'static str)], name: &[u8]) -> &'static str {
    match rows.iter().find(|(other, _)| other.as_bytes() == name) {
        Some((_, text)) => text,
        None => "",
    }
}

// What is said after the sentence: a rule, or what is wanted at the place.
fn put_wanted(
    alloc: Global,
    out: &mut Vec<u8>,
    case: &Case,
    command: Option<&Command>,
    cause: Option<Cause>,
) -> Result<(), OutOfMemory> {
    match case.told.code() {
        Code::MatchType | Code::BadMicroflow => put_after(out, ": ", rule_text(case)),
        Code::Limit => put_after(
            out,
            "; counted there: ",
            row_named(&KINDS, case.told.word(2)),
        ),
        Code::Duplicate => put_same(out, case),
        Code::MatchSyntax => put_wanted_in_match(alloc, out, case, command),
        Code::WrongWords => put_wanted_words(out, case, command, cause),
        Code::BadName | Code::BadMac | Code::BadAddress | Code::BadNumber | Code::NotInProfile =>
            put_wanted_word(out, case, command, case.told.number()),
        _ => Ok(()),
    }
}

// What says the same, where it was there before the line: an ACL, or the load balancer that has the VIP or is attached.
fn put_same(out: &mut Vec<u8>, case: &Case) -> Result<(), OutOfMemory> {
    let Ok(number) = u32::try_from(case.told.number()) else {
        return Ok(());
    };
    match case.records.lbs().get(ObjId(number)) {
        Some(lb) => put_same_balancer(out, lb.name.as_slice()),
        None => put_same_acl(out, case, ObjId(number)),
    }
}

fn put_same_balancer(out: &mut Vec<u8>, name: &[u8]) -> Result<(), OutOfMemory> {
    put(out, ": the load balancer ")?;
    out.extend_from_slice(name)?;
    put(out, " has the VIP, or is attached")
}

fn put_same_acl(out: &mut Vec<u8>, case: &Case, number: ObjId) -> Result<(), OutOfMemory> {
    let Some(acl) = case.records.acls().get(number) else {
        return Ok(());
    };
    let Some(switch) = case.records.switches().get(acl.owner) else {
        return Ok(());
    };
    put(out, ": ")?;
    put_switch_acl(out, switch.name.as_slice(), acl)?;
    // The newline that ends a command.
    let _newline = out.pop();
    Ok(())
}

fn rule_text(case: &Case) -> &'static str {
    row_named(&RULES, case.told.word(2))
}

fn put_after(out: &mut Vec<u8>, sign: &str, text: &str) -> Result<(), OutOfMemory> {
    put(out, sign)?;
    put(out, text)
}

fn put_wanted_in_match(
    alloc: Global,
    out: &mut Vec<u8>,
    case: &Case,
    command: Option<&Command>,
) -> Result<(), OutOfMemory> {
    let Some(command) = command else {
        return Ok(());
    };
    let wanted = wanted_at(alloc, match_text(command), case.told.number())?;
    put_after(
        out,
        "; wanted there: ",
        WANTED.get(wanted as usize).copied().unwrap_or(""),
    )
}

// What is wanted of words that are wrong: at a keyword what it may be, and else the form of the command.
fn put_wanted_words(
    out: &mut Vec<u8>,
    case: &Case,
    command: Option<&Command>,
    cause: Option<Cause>,
) -> Result<(), OutOfMemory> {
    match cause {
        Some(Cause::Keyword) => {
            let number = wrong_words(case, command).number;
            put_wanted_word(out, case, command, number)
        }
        Some(Cause::TooFew | Cause::TooMany | Cause::Options) => put_wanted_form(out, command),
        _ => Ok(()),
    }
}

fn put_wanted_form(out: &mut Vec<u8>, command: Option<&Command>) -> Result<(), OutOfMemory> {
    let Some(command) = command else {
        return Ok(());
    };
    match (verb_in(command), task_in(command)) {
        (Some(verb), _) => {
            put(out, "; its form is ")?;
            put_form(out, verb)
        }
        (None, Some(Task::Query(question))) => {
            put(out, "; its form is ")?;
            put_query(out, question)
        }
        _ => Ok(()),
    }
}

// What is wanted in place of the word of this number.
fn put_wanted_word(
    out: &mut Vec<u8>,
    case: &Case,
    command: Option<&Command>,
    number: usize,
) -> Result<(), OutOfMemory> {
    let Some(command) = command else {
        return Ok(());
    };
    if let Some(place) = place_wanted(case, command, number) {
        put(out, "; wanted there: ")?;
        return put_what(out, place);
    }
    match (verb_in(command), case.told.code()) {
        (None, Code::BadName) => {
            put(out, "; wanted there: ")?;
            put_datapath(out)
        }
        _ => put_wanted_form(out, Some(command)),
    }
}

// The line of a hint.
fn put_hint_line(out: &mut Vec<u8>, begin: &str, text: &str) -> Result<(), OutOfMemory> {
    put(out, "    hint: ")?;
    put(out, begin)?;
    put(out, text)?;
    put(out, "\n")
}

fn put_hint(
    alloc: Global,
    out: &mut Vec<u8>,
    case: &Case,
    command: Option<&Command>,
    cause: Option<Cause>,
) -> Result<(), OutOfMemory> {
    if let Some(hint) = pasted_hint(case, command, cause) {
        return put_hint_line(out, "", hint);
    }
    match slip_of(alloc, case, command, cause)? {
        Some(slip) => match SLIPS.get(slip as usize) {
            Some((_, hint)) => put_hint_line(out, "", hint),
            None => Ok(()),
        },
        None => match near_name(alloc, case, command)? {
            Some(name) => put_hint_line(out, "perhaps ", name),
            None => Ok(()),
        },
    }
}

// The name that a command or a field nearly has.
fn near_name(
    alloc: Global,
    case: &Case,
    command: Option<&Command>,
) -> Result<Option<&'static str>, OutOfMemory> {
    match (case.told.code(), command) {
        (Code::UnknownCommand, _) => near_command(alloc, case.text(case.told.number())),
        (Code::MatchType, Some(command)) if is_unknown(case) => {
            near_field(alloc, name_at(match_text(command), case.told.number()))
        }
        _ => Ok(None),
    }
}

// Whether the match has a name that is no field's.
fn is_unknown(case: &Case) -> bool {
    case.told.word(2) == b"UnknownField".as_slice()
}
