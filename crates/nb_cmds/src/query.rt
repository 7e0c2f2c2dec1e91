//! Queries.
ghost use Rattle.std.specs.Prelude.{◌≡◌, ◌+◌, ◌<◌, ◌≤◌, ◌^◌, Ok, IfOk, IfErr, IfSome, true, not, length, take, position};
ghost use Rattle.std.specs.List.{list_all};
ghost use Rattle.nb_words.specs.Commands.{is_short, is_small};
ghost use Rattle.nb_words.specs.Fault.{IsFaultOf};
ghost use Rattle.nb_edit.specs.Commands as command;
ghost use Rattle.nb_cmds.specs.Tasks.{is_minimal, takes};
ghost use Rattle.nb_cmds.specs.Queries.{no_other_option, trace_of, traced, minimal_after, trace, query_of, asked};

use crate::microflow::micro_of;
use crate::task::{Question, is_minimal, takes};
use nb_edit::option_count;
use nb_read::object_name;
use nb_records::Refusal;
use nb_words::{Command, LineFault, Word};
use nv_base::Name;
use pkt_micro::Micro;
use std::alloc::Global;

/// What a line asks to be told.
#[derive(Drop)]
pub enum Query {
    /// `lflow-list [DP]`: the flows of the datapath, or of all (ovn-sbctl(8), `lflow-list`).
    FlowList(Option<Name>),
    /// `[--minimal] trace DP MICROFLOW`, also `trace --minimal DP MICROFLOW`: what becomes of the packet that the microflow
    /// says, where it comes in by its port of the datapath, and, where it is not minimal, by which flows (ovn-trace(8)).
    Trace {
        minimal: bool,
        dp: Name,
        micro: Micro,
    },
    /// `ct-list`: the connections that are tracked (modelled on `dpctl/dump-conntrack` of ovs-appctl(8)).
    CtList,
    /// `ct-flush`: from now on none is tracked (modelled on `dpctl/flush-conntrack` of ovs-appctl(8)).
    CtFlush,
    /// `nbr-list`: what routers have learnt of their neighbours (modelled on the table MAC_Binding of ovn-sb(5)).
    NbrList,
    /// `nbr-flush`: from now on they know none (modelled on the table MAC_Binding of ovn-sb(5)).
    NbrFlush,
    /// `dump`: the network (not from OVN).
    Dump,
}

// The place of the first option that the query does not take.
fn other_option(question: Question, words: &[Word]) -> Option<usize>
    ensures place { result ≡ position (λ word. not (takes question word)) (take (command.option_count words.now) words.now) }
    ensures within { IfSome result (λ place. place < length words.now) }
{
    words[..option_count(words)]
        .iter()
        .position(|word| !takes(question, word))
}

/// Refuses the first option that the query does not take.
#[tactic(auto, using(crate::proofs::Small::has_small_numbers))]
pub(crate) fn no_other_option(question: Question, command: &Command) -> Result<(), LineFault>
    requires { is_small command.now ≡ true }
    ensures read { IfOk result (λ none. no_other_option question command.now ≡ Ok none) }
    ensures refused { IfErr result (λ fault. IsFaultOf (no_other_option question command.now) fault) }
{
    match other_option(question, command.words.as_slice()) {
        None => Ok(()),
        Some(place) => {
            Err(LineFault::Refused(Refusal::NotInProfile(command.first + place as u32)))
        }
    }
}

// The trace of this datapath and microflow, of which the first has this number.
fn trace_of(
    alloc: Global,
    minimal: bool,
    number: u32,
    datapath: &[u8],
    microflow: &[u8],
) -> Result<Query, LineFault>
    requires { length microflow.now < 2 ^ 32 }
    ensures read { IfOk result (λ found. trace_of minimal number datapath.now microflow.now ≡ Ok found) }
    ensures refused { IfErr result (λ fault. IsFaultOf (trace_of minimal number datapath.now microflow.now) fault) }
{
    let dp = object_name(alloc, number, datapath)?;
    let micro = micro_of(alloc, microflow)?;
    Ok(Query::Trace { minimal, dp, micro })
}

// The trace of these words, of which the first has this number.
#[tactic(auto, using(crate::proofs::Small::second_is_short))]
fn traced(alloc: Global, minimal: bool, number: u32, words: &[Word]) -> Result<Query, LineFault>
    requires { list_all is_short words.now ≡ true }
    ensures read { IfOk result (λ found. traced minimal number words.now ≡ Ok found) }
    ensures refused { IfErr result (λ fault. IsFaultOf (traced minimal number words.now) fault) }
{
    match words {
        [datapath, microflow] => {
            trace_of(
                alloc,
                minimal,
                number,
                datapath.text.as_slice(),
                microflow.text.as_slice(),
            )
        }
        _ => Err(LineFault::Refused(Refusal::WrongWords)),
    }
}

// How many words `--minimal` follow the name: one or none.
fn minimal_after(words: &[Word]) -> usize
    ensures count { result ≡ minimal_after words.now }
    ensures within { result ≤ length words.now }
    ensures one { result ≤ 1 }
{
    match words {
        [] => 0,
        [word, ..] => usize::from(is_minimal(word)),
    }
}

// The trace of the words after its name, of which the first has this number, with so many words `--minimal` before.
#[tactic(auto, using(crate::proofs::Small::rest_is_short))]
fn trace(alloc: Global, before: usize, number: u32, words: &[Word]) -> Result<Query, LineFault>
    requires numbered { number + length words.now < 2 ^ 32 }
    requires few { before < 2 ^ 32 }
    requires short { list_all is_short words.now ≡ true }
    ensures read { IfOk result (λ found. trace before number words.now ≡ Ok found) }
    ensures refused { IfErr result (λ fault. IsFaultOf (trace before number words.now) fault) }
{
    let after = minimal_after(words);
    if before + after > 1 {
        return Err(LineFault::Refused(Refusal::WrongWords));
    }
    traced(
        alloc,
        before + after == 1,
        number + after as u32,
        &words[after..],
    )
}

// The query of these words, its name among them, of which the first has this number, with so many options before.
#[tactic(auto, using(crate::proofs::Small::others_are_short))]
fn query_of(
    alloc: Global,
    question: Question,
    options: usize,
    number: u32,
    words: &[Word],
) -> Result<Query, LineFault>
    requires numbered { number + length words.now < 2 ^ 32 }
    requires few { options < 2 ^ 32 }
    requires short { list_all is_short words.now ≡ true }
    ensures read { IfOk result (λ found. query_of question options number words.now ≡ Ok found) }
    ensures refused { IfErr result (λ fault. IsFaultOf (query_of question options number words.now) fault) }
{
    match (question, words) {
        (Question::FlowList, [_]) => Ok(Query::FlowList(None)),
        (Question::FlowList, [_, datapath]) => {
            let name = object_name(alloc, number + 1, datapath.text.as_slice())?;
            Ok(Query::FlowList(Some(name)))
        }
        (Question::Trace, [_, words @ ..]) => trace(alloc, options, number + 1, words),
        (Question::CtList, [_]) => Ok(Query::CtList),
        (Question::CtFlush, [_]) => Ok(Query::CtFlush),
        (Question::NbrList, [_]) => Ok(Query::NbrList),
        (Question::NbrFlush, [_]) => Ok(Query::NbrFlush),
        (Question::Dump, [_]) => Ok(Query::Dump),
        _ => Err(LineFault::Refused(Refusal::WrongWords)),
    }
}

/// The query that a command alone in its line asks.
#[tactic(auto, using(crate::proofs::Small::has_small_numbers, crate::proofs::Small::rest_is_short, crate::proofs::Small::all_are_short))]
pub(crate) fn asked(
    alloc: Global,
    question: Question,
    command: &Command,
) -> Result<Query, LineFault>
    requires { is_small command.now ≡ true }
    ensures read { IfOk result (λ found. asked question command.now ≡ Ok found) }
    ensures refused { IfErr result (λ fault. IsFaultOf (asked question command.now) fault) }
{
    no_other_option(question, command)?;
    let words = command.words.as_slice();
    let options = option_count(words);
    query_of(
        alloc,
        question,
        options,
        command.first + options as u32,
        &words[options..],
    )
}
