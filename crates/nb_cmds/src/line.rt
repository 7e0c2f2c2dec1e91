//! What a line says.
ghost use Rattle.std.specs.Prelude.{◌≡◌, ◌∷◌, [], Ok, IfOk, IfErr, true};
ghost use Rattle.std.specs.List.{list_all};
ghost use Rattle.nb_words.specs.Commands.{is_small};
ghost use Rattle.nb_words.specs.Fault.{IsFaultOf};
ghost use Rattle.nb_cmds.specs.Lines.{task, edit_beside, edits, alone, said, read_line};

use crate::query::{Query, asked, no_other_option};
use crate::task::{Task, task_of};
use nb_edit::{option_count, read_command};
use nb_records::{Edit, Refusal};
use nb_words::{Command, LineFault, read_commands};
use nv_base::{Items, OutOfMemory};
use std::alloc::Global;

/// What a line says.
#[derive(Drop)]
pub enum Line {
    /// Nothing: it is blank, or a comment.
    Nothing,
    /// These edits, all or none.
    Edits(Items<Edit>),
    /// This query.
    Query(Query),
}

// What a command asks for, by its name.
#[tactic(auto, using(crate::proofs::Small::has_small_numbers))]
fn task(command: &Command) -> Result<Task, LineFault>
    requires { is_small command.now ≡ true }
    ensures read { IfOk result (λ found. task command.now ≡ Ok found) }
    ensures refused { IfErr result (λ fault. IsFaultOf (task command.now) fault) }
{
    let words = command.words.as_slice();
    let place = option_count(words);
    match words.get(place) {
        None => Err(LineFault::Refused(Refusal::WrongWords)),
        Some(name) => match task_of(name.text.as_slice()) {
            None => Err(LineFault::Refused(Refusal::UnknownCommand(command.first + place as u32))),
            Some(found) => Ok(found),
        },
    }
}

// The edit that a command asks for that is not alone in its line.
#[tactic(auto, unfolding(crate::specs::Lines::edit_beside))]
fn edit_beside(alloc: Global, command: &Command) -> Result<Edit, LineFault>
    requires { is_small command.now ≡ true }
    ensures read { IfOk result (λ edit. edit_beside command.now ≡ Ok edit) }
    ensures refused { IfErr result (λ fault. IsFaultOf (edit_beside command.now) fault) }
{
    match task(command)? {
        Task::Edit(_) => read_command(alloc, command),
        Task::Query(question) => {
            no_other_option(question, command)?;
            Err(LineFault::Refused(Refusal::WrongWords))
        }
    }
}

// The edits that these commands ask for.
fn edits(alloc: Global, commands: &[Command]) -> Result<Items<Edit>, LineFault>
    requires { list_all is_small commands.now ≡ true }
    ensures read { IfOk result (λ list. edits [] commands.now ≡ Ok list) }
    ensures refused { IfErr result (λ fault. IsFaultOf (edits [] commands.now) fault) }
{
    let mut list = Items::new(alloc);
    for command in commands {
        list.push(edit_beside(alloc, command)?)?;
    }
    Ok(list)
}

// A list of one edit.
fn one_edit(alloc: Global, edit: Edit) -> Result<Line, OutOfMemory>
    ensures { IfOk result (λ line. line ≡ Line.Edits (edit ∷ [])) }
{
    let mut list = Items::new(alloc);
    list.push(edit)?;
    Ok(Line::Edits(list))
}

// What a command says that is alone in its line.
fn alone(alloc: Global, command: &Command) -> Result<Line, LineFault>
    requires { is_small command.now ≡ true }
    ensures read { IfOk result (λ line. alone command.now ≡ Ok line) }
    ensures refused { IfErr result (λ fault. IsFaultOf (alone command.now) fault) }
{
    match task(command)? {
        Task::Edit(_) => {
            let edit = read_command(alloc, command)?;
            Ok(one_edit(alloc, edit)?)
        }
        Task::Query(question) => {
            let query = asked(alloc, question, command)?;
            Ok(Line::Query(query))
        }
    }
}

// What commands say.
fn said(alloc: Global, commands: &[Command]) -> Result<Line, LineFault>
    requires { list_all is_small commands.now ≡ true }
    ensures read { IfOk result (λ line. said commands.now ≡ Ok line) }
    ensures refused { IfErr result (λ fault. IsFaultOf (said commands.now) fault) }
{
    match commands {
        [] => Ok(Line::Nothing),
        [command] => alone(alloc, command),
        _ => Ok(Line::Edits(edits(alloc, commands)?)),
    }
}

/// Reads a line of the script, without its newline: the commands of ovn-nbctl(8) with `--` between, or one query. It is
/// refused as `read_commands` says, then command by command from the left: for a name that is not built, for an option
/// that the command doesn't take, for a wrong number of words or a query beside another command (not from OVN), then for
/// each word. Where memory runs out the answer is `Memory`.
pub fn read_line(alloc: Global, line: &[u8]) -> Result<Line, LineFault>
    ensures read { IfOk result (λ said. read_line line.now ≡ Ok said) }
    ensures refused { IfErr result (λ fault. IsFaultOf (read_line line.now) fault) }
{
    let commands = read_commands(alloc, line)?;
    said(alloc, commands.as_slice())
}
