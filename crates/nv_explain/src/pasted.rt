//! Hints for what is pasted from the shell and from OVN's documents.
use crate::case::{Case, match_text};
use crate::place::{argument_number, arguments};
use crate::sentences::{Cause, Code};
use nb_words::Command;
use nv_pasted::{Shell, name_hint, option_hint, table_hint};

/// Whether the word is an option that may not stand after the name of a command.
pub(crate) fn is_long_option(text: &[u8]) -> bool {
    text.starts_with(b"--") && text.len() > 2 && text != b"--minimal".as_slice()
}

/// The number in its line of the first option after the name of a command whose words are wrong for their number.
pub(crate) fn late_option(command: Option<&Command>, cause: Option<Cause>) -> Option<usize> {
    if !matches!(cause, Some(Cause::TooFew | Cause::TooMany)) {
        return None;
    }
    let command = command?;
    let place = arguments(command)
        .iter()
        .position(|word| is_long_option(word.text.as_slice()))?;
    Some(argument_number(command, place))
}

// Whether the refusal may come of a `\` at the end of the line.
fn is_at_the_end(case: &Case) -> bool {
    match case.told.code() {
        Code::WrongWords | Code::MatchSyntax => true,
        Code::UnknownCommand
        | Code::BadName
        | Code::BadMac
        | Code::BadAddress
        | Code::BadNumber
        | Code::NotInProfile => case.told.number() == case.spans.len(),
        _ => false,
    }
}

fn is_continued(case: &Case) -> bool {
    case.line.trim_ascii_end().ends_with(b"\\") && is_at_the_end(case)
}

// Whether the line begins with the sign between commands.
fn continues(case: &Case, cause: Option<Cause>) -> bool {
    match (cause, case.spans.first()) {
        (Some(Cause::NoCommand), Some(span)) => span.raw(case.line) == b"--".as_slice(),
        _ => false,
    }
}

// Whether the match cannot be read further than a `\`.
fn has_escape(case: &Case, command: Option<&Command>) -> bool {
    match (case.told.code(), command) {
        (Code::MatchSyntax, Some(command)) => {
            match_text(command).get(case.told.number()) == Some(&b'\\')
        }
        _ => false,
    }
}

// What the line has of a shell, if anything.
fn shell_of(case: &Case, command: Option<&Command>, cause: Option<Cause>) -> Option<Shell> {
    if is_continued(case) {
        Some(Shell::Continued)
    } else if continues(case, cause) {
        Some(Shell::Continues)
    } else if has_escape(case, command) {
        Some(Shell::Escape)
    } else {
        None
    }
}

// The hint for a word that stands for a command's name.
fn unknown_hint(case: &Case, command: Option<&Command>) -> Option<&'static str> {
    let name = case.text(case.told.number());
    match name_hint(name) {
        Some(hint) => Some(hint),
        None => table_hint(name, arguments(command?)),
    }
}

/// The hint for a refused line that was pasted, if there is one.
pub(crate) fn pasted_hint(
    case: &Case,
    command: Option<&Command>,
    cause: Option<Cause>,
) -> Option<&'static str> {
    if let Some(shell) = shell_of(case, command, cause) {
        return shell.hint();
    }
    match case.told.code() {
        Code::UnknownCommand => unknown_hint(case, command),
        Code::BadName | Code::NotInProfile => option_hint(case.text(case.told.number())),
        Code::WrongWords => option_hint(case.text(late_option(command, cause)?)),
        _ => None,
    }
}
