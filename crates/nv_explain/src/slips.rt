//! The slips that people make, as a refused line shows them.
use crate::case::{Case, has_option, match_text, task_in};
use crate::fields::name_at;
use crate::place::{argument, arguments, verb_in};
use crate::sentences::{Cause, Code, Slip, Wanted};
use crate::told::number_of;
use crate::wanted::wanted_at;
use crate::wrong::wrong_words;
use nb_cmds::Task;
use nb_edit::{Flag, Verb};
use nb_words::Command;
use nv_base::{Name, OutOfMemory, read_ip4, read_prefix};
use std::alloc::Global;

// The number of the first word after others that begins with `#`.
fn comment_number(case: &Case) -> Option<usize> {
    for (place, span) in case.spans.iter().enumerate() {
        if place > 0 && span.raw(case.line).starts_with(b"#") {
            return Some(place.saturating_add(1));
        }
    }
    None
}

// Whether a comment after other words is what is refused.
fn is_comment(case: &Case, cause: Option<Cause>) -> bool {
    let Some(number) = comment_number(case) else {
        return false;
    };
    match (case.told.code(), cause) {
        (Code::WrongWords, Some(Cause::TooFew | Cause::TooMany)) => true,
        (Code::BadName | Code::BadMac | Code::BadAddress, _) => number <= case.told.number(),
        _ => false,
    }
}

// Whether the word is an option that some command takes.
fn is_known_option(text: &[u8]) -> bool {
    let name = text.split(|byte| *byte == b'=').next().unwrap_or(text);
    matches!(
        name,
        b"--may-exist" | b"--if-exists" | b"--policy" | b"--type"
    )
}

// Whether an option stands after the name of the command.
fn is_late_option(case: &Case, command: Option<&Command>, cause: Option<Cause>) -> bool {
    let Some(command) = command else {
        return false;
    };
    let is_late = match (case.told.code(), cause) {
        (Code::WrongWords, Some(Cause::TooFew | Cause::TooMany)) => true,
        (Code::BadName | Code::BadMac, _) => true,
        _ => false,
    };
    is_late
        && arguments(command)
            .iter()
            .any(|word| is_known_option(word.text.as_slice()))
}

fn unknown_command(name: &[u8]) -> Option<Slip> {
    if name == b"show".as_slice() || name.ends_with(b"-list") || name.starts_with(b"lsp-get-") {
        Some(Slip::ShowCommand)
    } else {
        None
    }
}

// Whether there are more words than a command with a match takes.
fn has_open_match(command: &Command) -> bool {
    let count = arguments(command).len();
    match task_in(command) {
        Some(Task::Edit(Verb::AclAdd)) => count > 5,
        Some(Task::Edit(Verb::AclDel)) => count > 4,
        Some(Task::Query(_)) => count > 2,
        _ => false,
    }
}

fn wrong_keyword(text: &[u8]) -> Option<Slip> {
    match text {
        b"deny" | b"block" | b"discard" => Some(Slip::Deny),
        b"accept" | b"permit" => Some(Slip::Accept),
        b"ingress" | b"in" | b"from" | b"inbound" => Some(Slip::Ingress),
        b"egress" | b"out" | b"to" | b"outbound" => Some(Slip::Egress),
        _ => {
            if text.iter().any(|byte| byte.is_ascii_uppercase()) {
                Some(Slip::Capitals)
            } else {
                None
            }
        }
    }
}

// Whether an option that ovn-nbctl takes before `acl-add` stands after it.
fn has_late_acl_option(command: &Command) -> bool {
    let is_acl = matches!(verb_in(command), Some(Verb::AclAdd));
    is_acl
        && arguments(command)
            .iter()
            .any(|word| is_acl_option(word.text.as_slice()))
}

// Whether the backends of a VIP stand in more words than one: an address stands where the protocol may.
fn has_spaced_backends(command: &Command) -> bool {
    let is_vip = matches!(verb_in(command), Some(Verb::LbAdd));
    is_vip
        && argument(command, 3)
            .first()
            .is_some_and(|byte| byte.is_ascii_digit())
}

fn wrong_word(case: &Case, command: &Command) -> Option<Slip> {
    let wrong = wrong_words(case, Some(command));
    match wrong.cause {
        Cause::TooMany if has_late_acl_option(command) => Some(Slip::AclOption),
        Cause::TooMany if has_open_match(command) => Some(Slip::UnquotedMatch),
        Cause::TooMany | Cause::Keyword if has_spaced_backends(command) => Some(Slip::BackendWords),
        Cause::Keyword => wrong_keyword(case.text(wrong.number)),
        _ => None,
    }
}

// Whether the command sets a list of addresses, each with its MAC in one word.
fn sets_a_list(command: &Command) -> bool {
    matches!(
        verb_in(command),
        Some(Verb::LspSetAddresses | Verb::LspSetPortSecurity)
    )
}

// Whether the word has a comma, in a list of addresses.
fn has_comma(command: &Command, text: &[u8]) -> bool {
    let is_in_list = sets_a_list(command)
        || matches!(verb_in(command), Some(Verb::AsAdd | Verb::AsSet));
    is_in_list && text.contains(&b',')
}

fn bad_mac(command: &Command, text: &[u8]) -> Option<Slip> {
    let is_address = read_ip4(text).is_ok() || read_prefix(text).is_ok();
    if is_address && sets_a_list(command) {
        Some(Slip::UnquotedList)
    } else if has_comma(command, text) {
        Some(Slip::Comma)
    } else if text.len() >= 17 && text.contains(&b'-') && !text.contains(&b':') {
        Some(Slip::MacSigns)
    } else {
        None
    }
}

// Whether the word of the reply is the external address of a NAT rule.
fn is_external(case: &Case, command: &Command) -> bool {
    case.argument_place(command, case.told.number()) == Some(2)
}

fn bad_address(case: &Case, command: &Command, text: &[u8]) -> Option<Slip> {
    if has_comma(command, text) {
        return Some(Slip::Comma);
    }
    match verb_in(command) {
        Some(Verb::LspSetAddresses) if text.contains(&b'/') => Some(Slip::PrefixInList),
        Some(Verb::LrNatAdd) if text.contains(&b'/') && is_external(case, command) => {
            Some(Slip::LogicalFirst)
        }
        Some(Verb::LbAdd | Verb::LbDel) if text.starts_with(b"[") => Some(Slip::Ipv6),
        _ => None,
    }
}

// Whether `--may-exist` would help.
fn may_exist_helps(command: &Command) -> bool {
    let Some(verb) = verb_in(command) else {
        return false;
    };
    let takes = verb
        .form()
        .flags
        .iter()
        .any(|flag| matches!(flag, Flag::MayExist));
    takes && !has_option(command, b"--may-exist")
}

// Whether `--if-exists` would help.
fn if_exists_helps(command: &Command) -> bool {
    let Some(verb) = verb_in(command) else {
        return false;
    };
    let takes = verb
        .form()
        .flags
        .iter()
        .any(|flag| matches!(flag, Flag::IfExists));
    takes && !has_option(command, b"--if-exists")
}

fn no_such_object(
    alloc: Global,
    case: &Case,
    command: &Command,
) -> Result<Option<Slip>, OutOfMemory> {
    if if_exists_helps(command) {
        return Ok(Some(Slip::IfExists));
    }
    let name = Name::from_slice(alloc, case.told.word(2))?;
    let is_query = matches!(task_in(command), Some(Task::Query(_)));
    Ok(if is_query && case.records.port_of(&name).is_some() {
        Some(Slip::PortForDatapath)
    } else {
        None
    })
}

// Whether the text at a place of a match is a word, or a sign alone, for an operator.
fn is_word_operator(rest: &[u8], before: &[u8]) -> bool {
    matches!(name_at(rest, 0), b"and" | b"or" | b"AND" | b"OR" | b"not")
        || before.trim_ascii_end().ends_with(b"not")
        || rest.starts_with(b"&")
        || rest.starts_with(b"|")
}

// Whether a name follows `==` or `!=`.
fn is_bare_name(rest: &[u8], before: &[u8]) -> bool {
    !name_at(rest, 0).is_empty() && before.trim_ascii_end().ends_with(b"=")
}

fn bad_syntax(alloc: Global, text: &[u8], place: usize) -> Result<Option<Slip>, OutOfMemory> {
    let rest = text.get(place..).unwrap_or(b"");
    let before = text.get(..place).unwrap_or(text);
    if rest.starts_with(b"=") && !rest.starts_with(b"==") {
        return Ok(Some(Slip::Equals));
    }
    let wanted = wanted_at(alloc, text, place)?;
    Ok(match wanted {
        Wanted::Constant if is_bare_name(rest, before) => Some(Slip::UnquotedName),
        Wanted::Operand | Wanted::Continuation if is_word_operator(rest, before) => {
            Some(Slip::WordOperator)
        }
        _ => None,
    })
}

// Whether a prefix of the match has a length above 32.
fn has_long_prefix(text: &[u8]) -> bool {
    text.split(|byte| *byte == b'/')
        .skip(1)
        .any(|rest| is_long(name_at(rest, 0)))
}

fn is_long(text: &[u8]) -> bool {
    match number_of(text) {
        Some(length) => length > 32,
        None => false,
    }
}

fn bad_type(case: &Case, text: &[u8]) -> Option<Slip> {
    let name = name_at(text, case.told.number());
    if case.told.word(2) == b"WrongWidth".as_slice() && has_long_prefix(text) {
        Some(Slip::LongPrefix)
    } else if name.starts_with(b"icmp.") {
        Some(Slip::Icmp)
    } else {
        None
    }
}

// Whether the match has the predicate `icmp`.
fn has_icmp(text: &[u8]) -> bool {
    text.split(|byte| matches!(*byte, b' ' | b'&' | b'(' | b')' | b'!' | b'|'))
        .any(|part| part == b"icmp".as_slice())
}

// Whether the word is an option that ovn-nbctl takes before `acl-add`.
fn is_acl_option(text: &[u8]) -> bool {
    let name = text.split(|byte| *byte == b'=').next().unwrap_or(text);
    matches!(
        name,
        b"--log"
            | b"--name"
            | b"--severity"
            | b"--meter"
            | b"--label"
            | b"--tier"
            | b"--apply-after-lb"
    )
}

fn not_in_profile(command: &Command, text: &[u8]) -> Option<Slip> {
    if is_acl_option(text) && matches!(verb_in(command), Some(Verb::AclAdd)) {
        Some(Slip::AclOption)
    } else if !text.starts_with(b"-") && text.contains(&b':') {
        Some(Slip::Ipv6)
    } else {
        None
    }
}

// The slip that the code and its word show.
fn shown_by_code(
    alloc: Global,
    case: &Case,
    command: &Command,
) -> Result<Option<Slip>, OutOfMemory> {
    let text = case.text(case.told.number());
    match case.told.code() {
        Code::UnknownCommand => Ok(unknown_command(text)),
        Code::WrongWords => Ok(wrong_word(case, command)),
        Code::BadMac => Ok(bad_mac(command, text)),
        Code::BadAddress => Ok(bad_address(case, command, text)),
        Code::NotInProfile => Ok(not_in_profile(command, text)),
        Code::NoSuchObject => no_such_object(alloc, case, command),
        Code::Exists | Code::Duplicate if may_exist_helps(command) => Ok(Some(Slip::MayExist)),
        Code::MatchSyntax => bad_syntax(alloc, match_text(command), case.told.number()),
        Code::MatchType => Ok(bad_type(case, match_text(command))),
        Code::BadMicroflow if has_icmp(match_text(command)) => Ok(Some(Slip::Icmp)),
        _ => Ok(None),
    }
}

/// The slip that a refused line shows, if it shows one that is known.
pub(crate) fn slip_of(
    alloc: Global,
    case: &Case,
    command: Option<&Command>,
    cause: Option<Cause>,
) -> Result<Option<Slip>, OutOfMemory> {
    if is_comment(case, cause) {
        return Ok(Some(Slip::Comment));
    }
    if is_late_option(case, command, cause) {
        return Ok(Some(Slip::LateOption));
    }
    match command {
        Some(command) => shown_by_code(alloc, case, command),
        None => Ok(None),
    }
}
