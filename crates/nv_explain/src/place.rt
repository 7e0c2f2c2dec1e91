//! What stands at the places of a command.
use nb_edit::{Place, Tail, Verb, option_count, verb_of};
use nb_words::{Command, Word};

/// The name of a command, where it has one.
pub(crate) fn name_of(command: &Command) -> Option<&Word> {
    let words = command.words.as_slice();
    words.get(option_count(words))
}

/// The command that edits of which this is the name.
pub(crate) fn verb_in(command: &Command) -> Option<Verb> {
    verb_of(name_of(command)?.text.as_slice())
}

/// The words after the name of a command.
pub(crate) fn arguments(command: &Command) -> &[Word] {
    let words = command.words.as_slice();
    words
        .get(option_count(words).saturating_add(1)..)
        .unwrap_or(&[])
}

/// The text of the word at this place after the name of a command, or nothing.
pub(crate) fn argument(command: &Command, place: usize) -> &[u8] {
    match arguments(command).get(place) {
        Some(word) => word.text.as_slice(),
        None => b"",
    }
}

/// The number in its line of the word at this place after the name of a command.
pub(crate) fn argument_number(command: &Command, place: usize) -> usize {
    let before = option_count(command.words.as_slice()).saturating_add(1);
    (command.first as usize)
        .saturating_add(before)
        .saturating_add(place)
}

// What stands at a place of a tail.
fn tail_place(tail: Tail, place: usize) -> Option<Place> {
    match (tail, place) {
        (Tail::Repeats(first), _) => Some(first),
        (Tail::May(first), 0) | (Tail::MayThen(first, _), 0) => Some(first),
        (Tail::MayThenBoth(first, _, _), 0) => Some(first),
        (Tail::MayThen(_, second), 1) | (Tail::MayThenBoth(_, second, _), 1) => Some(second),
        (Tail::MayThenBoth(_, _, third), 2) => Some(third),
        _ => None,
    }
}

/// What stands at this place after the name of a command.
pub(crate) fn place_at(verb: Verb, place: usize) -> Option<Place> {
    let form = verb.form();
    match form.places.get(place) {
        Some(place) => Some(*place),
        None => tail_place(form.tail, place.saturating_sub(form.places.len())),
    }
}

/// How many words may stand after the name of a command at most, where there is a bound.
pub(crate) fn most_words(verb: Verb) -> Option<usize> {
    let form = verb.form();
    let more = match form.tail {
        Tail::Ends => 0,
        Tail::May(_) => 1,
        Tail::MayThen(..) => 2,
        Tail::MayThenBoth(..) => 3,
        Tail::Repeats(_) => return None,
    };
    Some(form.places.len().saturating_add(more))
}

/// Whether so many words may stand after the name of a command.
pub(crate) fn takes_count(verb: Verb, count: usize) -> bool {
    let form = verb.form();
    let Some(more) = count.checked_sub(form.places.len()) else {
        return false;
    };
    match form.tail {
        Tail::Ends => more == 0,
        Tail::May(_) => more <= 1,
        Tail::MayThen(..) => more <= 2,
        Tail::MayThenBoth(..) => matches!(more, 0 | 1 | 3),
        Tail::Repeats(_) => true,
    }
}
