//! What a command says: the edit that it asks for, or why it is refused whatever the network is.
ghost use Rattle.std.specs.Prelude.{◌≡◌, ◌<◌, ◌≤◌, ◌+◌, ◌^◌, Ok, IfOk, IfErr, IfSome, Some, true, length, position, not};
ghost use Rattle.std.specs.List.{list_all};
ghost use Rattle.nb_words.specs.Commands.{command, is_short, is_small};
ghost use Rattle.nb_words.specs.Fault.{IsFaultOf};
ghost use Rattle.nb_edit.specs.Forms.{form};
ghost use Rattle.nb_edit.specs.Keywords as keyword;
ghost use Rattle.nb_edit.specs.Commands.{suits, ends, fits, is_taken, other_option, is_once, is_well_formed, formed, tested, named, said, option_count, read_command};

use crate::call::Call;
use crate::edit::edit_of;
use crate::form::{Flag, Place, Tail};
use crate::keywords::{is_flag, is_option, is_whole, may_stand};
use crate::verb::{Verb, verb_of};
use nb_records::{Edit, Refusal};
use nb_words::{Command, LineFault, Word};
use std::alloc::Global;

// Whether the word may stand at this place.
fn suits(place: Place, word: &Word) -> bool
    ensures { result ≡ suits place word.now }
{
    may_stand(place, word.text.as_slice())
}

// Whether the words may stand at places of this kind.
fn all_suit(place: Place, words: &[Word]) -> bool
    ensures { result ≡ list_all (suits place) words.now }
{
    words.iter().all(|word| suits(place, word))
}

// Whether these words may follow those that the command needs.
fn ends(tail: Tail, words: &[Word]) -> bool
    ensures { result ≡ ends tail words.now }
{
    match (tail, words) {
        (Tail::Repeats(place), _) => all_suit(place, words),
        (_, []) => true,
        (Tail::May(place), [word]) => suits(place, word),
        (Tail::MayThen(place, _), [word]) => suits(place, word),
        (Tail::MayThen(place, next), [word, second]) => suits(place, word) && suits(next, second),
        (Tail::MayThenBoth(place, _, _), [word]) => suits(place, word),
        (Tail::MayThenBoth(place, next, last), [word, second, third]) => {
            suits(place, word) && suits(next, second) && suits(last, third)
        }
        _ => false,
    }
}

// Whether there are as many words as there are places, and keywords where keywords are wanted.
fn fits(places: &[Place], tail: Tail, words: &[Word]) -> bool
    ensures { result ≡ fits places.now tail words.now }
{
    match places {
        [] => ends(tail, words),
        [place, places @ ..] => match words {
            [] => false,
            [word, words @ ..] => suits(*place, word) && fits(places, tail, words),
        },
    }
}

/// Whether the word is an option that the command takes, as far as its name goes (ovn-nbctl(8)).
pub fn is_taken(verb: Verb, word: &Word) -> bool
    ensures { result ≡ is_taken verb word.now }
{
    verb.form()
        .flags
        .iter()
        .any(|flag| is_flag(*flag, word.text.as_slice()))
}

// Whether the option stands once at most.
fn is_once(options: &[Word], flag: Flag) -> bool
    ensures { result ≡ is_once options.now flag }
{
    options
        .iter()
        .filter(|word| is_flag(flag, word.text.as_slice()))
        .count()
        <= 1
}

// Whether each option has a value that it may have.
fn all_whole(options: &[Word]) -> bool
    ensures { result ≡ list_all (λ word. keyword.is_whole word.text) options.now }
{
    options.iter().all(|word| is_whole(word.text.as_slice()))
}

// Whether each of these options stands once at most.
fn all_once(options: &[Word], flags: &[Flag]) -> bool
    ensures { result ≡ list_all (is_once options.now) flags.now }
{
    flags.iter().all(|flag| is_once(options, *flag))
}

// The place of the first option that the command doesn't take.
fn first_not_taken(verb: Verb, options: &[Word]) -> Option<usize>
    ensures place { result ≡ position (λ word. not (is_taken verb word)) options.now }
    ensures within { IfSome result (λ place. place < length options.now) }
{
    options.iter().position(|word| !is_taken(verb, word))
}

// The number of the first option that the command doesn't take.
fn other_option(first: u32, verb: Verb, options: &[Word]) -> Option<u32>
    requires { first + length options.now < 2 ^ 32 }
    ensures { result ≡ other_option first verb options.now }
{
    match first_not_taken(verb, options) {
        Some(place) => Some(first + place as u32),
        None => None,
    }
}

// The place of the first word that is no option.
fn first_no_option(words: &[Word]) -> Option<usize>
    ensures place { result ≡ position (λ word. not (keyword.is_option word.text)) words.now }
    ensures within { IfSome result (λ place. place < length words.now) }
{
    words
        .iter()
        .position(|word| !is_option(word.text.as_slice()))
}

/// How many options a command begins with: options stand before its name (ovn-nbctl(8)).
pub fn option_count(words: &[Word]) -> usize
    ensures count { result ≡ option_count words.now }
    ensures within { result ≤ length words.now }
{
    match first_no_option(words) {
        Some(place) => place,
        None => words.len(),
    }
}

// Whether the options have the values that they may have, none is given twice, and the words fit.
fn is_well_formed(verb: Verb, options: &[Word], words: &[Word]) -> bool
    ensures { result ≡ is_well_formed verb options.now words.now }
{
    let form = verb.form();
    all_whole(options) && all_once(options, form.flags) && fits(form.places, form.tail, words)
}

// What a command says whose options are all its own.
#[tactic(auto, using(crate::proofs::Fits::has_places))]
fn formed(alloc: Global, verb: Verb, call: &Call) -> Result<Edit, LineFault>
    ensures read { IfOk result (λ edit. formed verb call.now ≡ Ok edit) }
    ensures refused { IfErr result (λ fault. IsFaultOf (formed verb call.now) fault) }
{
    if !is_well_formed(verb, call.options(), call.words()) {
        return Err(LineFault::Refused(Refusal::WrongWords));
    }
    edit_of(alloc, verb, call)
}

// What a command says, by the number of its first option that it doesn't take.
fn tested(alloc: Global, verb: Verb, call: &Call, option: Option<u32>) -> Result<Edit, LineFault>
    ensures read { IfOk result (λ edit. tested verb call.now option ≡ Ok edit) }
    ensures refused { IfErr result (λ fault. IsFaultOf (tested verb call.now option) fault) }
{
    match option {
        None => formed(alloc, verb, call),
        Some(option) => Err(LineFault::Refused(Refusal::NotInProfile(option))),
    }
}

// What a command of this name says.
fn named(
    alloc: Global,
    first: u32,
    options: &[Word],
    words: &[Word],
    verb: Verb,
) -> Result<Edit, LineFault>
    requires numbered { first + length options.now + 1 + length words.now < 2 ^ 32 }
    requires short { list_all is_short words.now ≡ true }
    ensures read { IfOk result (λ edit. named first options.now words.now (Some verb) ≡ Ok edit) }
    ensures refused { IfErr result (λ fault. IsFaultOf (named first options.now words.now (Some verb)) fault) }
{
    let option = other_option(first, verb, options);
    let call = Call::new(options, first + options.len() as u32 + 1, words);
    tested(alloc, verb, &call, option)
}

// What a command of these options, and these words from its name on, says.
#[tactic(auto, using(crate::proofs::Short::rest_is_short))]
fn said(alloc: Global, first: u32, options: &[Word], words: &[Word]) -> Result<Edit, LineFault>
    requires numbered { first + length options.now + length words.now < 2 ^ 32 }
    requires short { list_all is_short words.now ≡ true }
    ensures read { IfOk result (λ edit. said first options.now words.now ≡ Ok edit) }
    ensures refused { IfErr result (λ fault. IsFaultOf (said first options.now words.now) fault) }
{
    match words.split_first() {
        None => Err(LineFault::Refused(Refusal::WrongWords)),
        Some((name, arguments)) => match verb_of(name.text.as_slice()) {
            None => Err(LineFault::Refused(Refusal::UnknownCommand(first + options.len() as u32))),
            Some(verb) => named(alloc, first, options, arguments, verb),
        },
    }
}

/// Reads a command (ovn-nbctl(8)): the edit that it asks for. It is refused first where it has no name or the name is
/// none, then for an option that it doesn't take, then for a wrong number of words or a keyword that is none, then for
/// each word from the left. Where memory runs out the answer is `Memory`.
pub fn read_command(alloc: Global, command: &Command) -> Result<Edit, LineFault>
    requires { is_small command.now ≡ true }
    ensures read { IfOk result (λ edit. read_command command.now ≡ Ok edit) }
    ensures refused { IfErr result (λ fault. IsFaultOf (read_command command.now) fault) }
{
    read_words(alloc, command.first, command.words.as_slice())
}

/// Reads the command of these words (ovn-nbctl(8)), of which the first has this number in the line. It is refused where
/// `read_command` refuses it, and for the same. Where memory runs out the answer is `Memory`.
#[tactic(auto, using(crate::proofs::Short::drop_is_short, crate::proofs::Short::is_numbered, crate::proofs::Short::all_are_short))]
pub fn read_words(alloc: Global, first: u32, words: &[Word]) -> Result<Edit, LineFault>
    requires { is_small (command first words.now) ≡ true }
    ensures read { IfOk result (λ edit. read_command (command first words.now) ≡ Ok edit) }
    ensures refused { IfErr result (λ fault. IsFaultOf (read_command (command first words.now)) fault) }
{
    let (options, others) = words.split_at(option_count(words));
    said(alloc, first, options, others)
}
