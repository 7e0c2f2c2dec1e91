//! Which words of a line are wrong, and why.
use crate::case::{Case, task_in};
use crate::place::{
    argument_number, arguments, most_words, name_of, place_at, takes_count, verb_in,
};
use crate::sentences::Cause;
use nb_cmds::{Question, Task, is_minimal};
use nb_edit::{Place, Verb, option_count};
use nb_read::{nat_kind_of, proto_of, state_of, verdict_of, way_of};
use nb_words::{Command, Word};

/// Why words are wrong, and the number of the word that shows it.
#[derive(Clone, Copy)]
pub(crate) struct Wrong {
    pub cause: Cause,
    pub number: usize,
}

// Whether the word may stand at a place where a keyword is wanted.
fn is_keyword(place: Place, text: &[u8]) -> bool {
    match place {
        Place::State => state_of(text).is_some(),
        Place::PortOption => text.contains(&b'='),
        Place::NatType => nat_kind_of(text).is_some(),
        Place::Protocol => proto_of(text).is_some() || text == b"sctp".as_slice(),
        Place::Direction => way_of(text).is_some(),
        Place::Verdict => verdict_of(text).is_some() || text == b"pass".as_slice(),
        _ => true,
    }
}

// Whether the word at this place after the name of a command is no keyword where one is wanted.
fn is_no_keyword(verb: Verb, place: usize, word: &Word) -> bool {
    match place_at(verb, place) {
        Some(wanted) => !is_keyword(wanted, word.text.as_slice()),
        None => false,
    }
}

// The place of the first word that is no keyword where one is wanted.
fn first_no_keyword(verb: Verb, words: &[Word]) -> Option<usize> {
    for (place, word) in words.iter().enumerate() {
        if is_no_keyword(verb, place, word) {
            return Some(place);
        }
    }
    None
}

// The number of the name of a command.
fn name_number(command: &Command) -> usize {
    (command.first as usize).saturating_add(option_count(command.words.as_slice()))
}

// What is wrong of the count of words where so many may stand: the first that is too much shows it, or else the command's name.
fn wrong_count(command: &Command, most: Option<usize>) -> Wrong {
    match most {
        Some(most) if most < arguments(command).len() => Wrong {
            cause: Cause::TooMany,
            number: argument_number(command, most),
        },
        _ => Wrong {
            cause: Cause::TooFew,
            number: name_number(command),
        },
    }
}

// How many words may stand after the name of a query.
fn most_of(question: Question) -> usize {
    match question {
        Question::FlowList => 1,
        Question::Trace => 2,
        Question::CtList
        | Question::CtFlush
        | Question::NbrList
        | Question::NbrFlush
        | Question::Dump => 0,
    }
}

// Why the words of a command that edits are wrong.
fn wrong_edit(command: &Command, verb: Verb) -> Wrong {
    let words = arguments(command);
    if !takes_count(verb, words.len()) {
        return wrong_count(command, most_words(verb));
    }
    match first_no_keyword(verb, words) {
        Some(place) => Wrong {
            cause: Cause::Keyword,
            number: argument_number(command, place),
        },
        None => Wrong {
            cause: Cause::Options,
            number: command.first as usize,
        },
    }
}

// Why the words of a query are wrong.
fn wrong_query(command: &Command, question: Question, is_alone: bool) -> Wrong {
    if !is_alone {
        Wrong {
            cause: Cause::QueryBeside,
            number: name_number(command),
        }
    } else if command
        .words
        .as_slice()
        .iter()
        .filter(|word| is_minimal(word))
        .count()
        > 1
    {
        Wrong {
            cause: Cause::Options,
            number: command.first as usize,
        }
    } else {
        wrong_count(command, Some(most_of(question)))
    }
}

// Why the words of a command are wrong. One without a name is shown by its first word, or by the `--` before or after it.
fn wrong_command(case: &Case, command: &Command) -> Wrong {
    if name_of(command).is_none() {
        return Wrong {
            cause: Cause::NoCommand,
            number: (command.first as usize).min(case.words.len()),
        };
    }
    match (verb_in(command), task_in(command)) {
        (Some(verb), _) => wrong_edit(command, verb),
        (None, Some(Task::Query(question))) => {
            wrong_query(command, question, case.commands.len() == 1)
        }
        _ => wrong_count(command, None),
    }
}

/// Why the words of a line are wrong, and which of its commands shows it: where there is none, a quote is left open.
pub(crate) fn wrong_words(case: &Case, command: Option<&Command>) -> Wrong {
    match command {
        Some(command) => wrong_command(case, command),
        None => Wrong {
            cause: Cause::OpenQuote,
            number: case.spans.len(),
        },
    }
}
