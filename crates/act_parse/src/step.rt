//! Actions without a block.
ghost use Rattle.std.specs.Prelude.{◌≡◌, ◌≤◌, length, IfOk};
ghost use Rattle.act_parse.specs.inner.Reading as reading;
ghost use Rattle.act_parse.specs.inner.Gives.{Reads};

use crate::assignment::field_step;
use crate::ending::ended;
use crate::keyword::{Keyword, keyword_of};
use crate::lexer::{after, after_word, is_at, tokens, word};
use crate::number::{decimal, ip4};
use crate::stop::Read;
use crate::targets::all_targets;
use crate::wanted::{Wanted, lost};
use act_core::Step;
use nv_base::{Ip4, field_of};
use std::alloc::Global;

/// Reads the name of a pipeline, and whether it is egress.
fn pipeline<'a>(text: &'a [u8]) -> Read<'a, bool>
    ensures reads { Reads result (reading.pipeline text.now) }
    ensures left { IfOk result (λ x. length x.1.now ≤ length text.now) }
{
    if is_at(b"e", text) {
        let ((), rest) = tokens(&["egress"], text)?;
        return Ok((true, rest));
    }
    let ((), rest) = tokens(&["ingress"], text)?;
    Ok((false, rest))
}

/// Reads the table of a jump.
fn table<'a>(alloc: Global, egress: bool, text: &'a [u8]) -> Read<'a, Step>
    ensures reads { Reads result (reading.table egress text.now) }
    ensures left { IfOk result (λ x. length x.1.now ≤ length text.now) }
{
    let ((), rest) = tokens(&[",", " ", "table", "="], text)?;
    let (table, rest) = decimal(alloc, 0, 256, rest)?;
    let table = table as u8;
    ended(Step::Jump { egress, table }, &[")", ";"], rest)
}

/// Reads a jump, after `next(`.
fn jump<'a>(alloc: Global, text: &'a [u8]) -> Read<'a, Step>
    ensures reads { Reads result (reading.jump text.now) }
    ensures left { IfOk result (λ x. length x.1.now ≤ length text.now) }
{
    let ((), rest) = tokens(&["pipeline", "="], text)?;
    let (egress, rest) = pipeline(rest)?;
    table(alloc, egress, rest)
}

/// Reads what follows `next`.
fn next<'a>(alloc: Global, text: &'a [u8]) -> Read<'a, Step>
    ensures reads { Reads result (reading.next text.now) }
    ensures left { IfOk result (λ x. length x.1.now ≤ length text.now) }
{
    match after("(", text) {
        Some(rest) => jump(alloc, rest),
        None => ended(Step::Next, &[";"], text),
    }
}

/// Reads the targets of a load balancer, after `ct_lb(`.
fn backends<'a>(alloc: Global, text: &'a [u8]) -> Read<'a, Step>
    ensures reads { Reads result (reading.backends text.now) }
    ensures left { IfOk result (λ x. length x.1.now ≤ length text.now) }
{
    let ((), rest) = tokens(&["backends", "="], text)?;
    let (targets, rest) = all_targets(alloc, rest)?;
    ended(Step::CtLbTo(targets), &[")", ";"], rest)
}

/// Reads what follows `ct_lb`.
fn balance<'a>(alloc: Global, text: &'a [u8]) -> Read<'a, Step>
    ensures reads { Reads result (reading.balance text.now) }
    ensures left { IfOk result (λ x. length x.1.now ≤ length text.now) }
{
    match after("(", text) {
        Some(rest) => backends(alloc, rest),
        None => ended(Step::CtLb, &[";"], text),
    }
}

/// Reads what follows `ct_commit`.
fn commit<'a>(alloc: Global, text: &'a [u8]) -> Read<'a, Step>
    ensures reads { Reads result (reading.commit text.now) }
    ensures left { IfOk result (λ x. length x.1.now ≤ length text.now) }
{
    let ((), rest) = tokens(&[" ", "{", " ", "ct_mark.blocked", " ", "=", " "], text)?;
    let (number, rest) = decimal(alloc, 0, 2, rest)?;
    let blocked = number == 1;
    ended(Step::CtCommit { blocked }, &[";", " ", "}", ";"], rest)
}

/// Reads an address in parentheses, if it is there, and `;`.
fn address_or_none<'a>(alloc: Global, text: &'a [u8]) -> Read<'a, Option<Ip4>>
    ensures reads { Reads result (reading.address_or_none text.now) }
    ensures left { IfOk result (λ x. length x.1.now ≤ length text.now) }
{
    match after("(", text) {
        Some(rest) => {
            let (addr, rest) = ip4(alloc, rest)?;
            let ((), rest) = tokens(&[")", ";"], rest)?;
            Ok((Some(addr), rest))
        }
        None => {
            let ((), rest) = tokens(&[";"], text)?;
            Ok((None, rest))
        }
    }
}

/// The translation of the source, to this address if there is one.
fn snat_of(addr: Option<Ip4>) -> Step
    ensures { result ≡ reading.snat_of addr }
{
    match addr {
        Some(addr) => Step::CtSnatTo(addr),
        None => Step::CtSnat,
    }
}

/// The translation of the destination, to this address if there is one.
fn dnat_of(addr: Option<Ip4>) -> Step
    ensures { result ≡ reading.dnat_of addr }
{
    match addr {
        Some(addr) => Step::CtDnatTo(addr),
        None => Step::CtDnat,
    }
}

fn snat<'a>(alloc: Global, text: &'a [u8]) -> Read<'a, Step>
    ensures reads { Reads result (reading.snat text.now) }
    ensures left { IfOk result (λ x. length x.1.now ≤ length text.now) }
{
    let (addr, rest) = address_or_none(alloc, text)?;
    Ok((snat_of(addr), rest))
}

fn dnat<'a>(alloc: Global, text: &'a [u8]) -> Read<'a, Step>
    ensures reads { Reads result (reading.dnat text.now) }
    ensures left { IfOk result (λ x. length x.1.now ≤ length text.now) }
{
    let (addr, rest) = address_or_none(alloc, text)?;
    Ok((dnat_of(addr), rest))
}

fn put_arp<'a>(text: &'a [u8]) -> Read<'a, Step>
    ensures reads { Reads result (reading.put_arp text.now) }
    ensures left { IfOk result (λ x. length x.1.now ≤ length text.now) }
{
    ended(
        Step::PutArp,
        &[
            "(", "inport", ",", " ", "arp.spa", ",", " ", "arp.sha", ")", ";",
        ],
        text,
    )
}

fn get_arp<'a>(text: &'a [u8]) -> Read<'a, Step>
    ensures reads { Reads result (reading.get_arp text.now) }
    ensures left { IfOk result (λ x. length x.1.now ≤ length text.now) }
{
    ended(
        Step::GetArp,
        &["(", "outport", ",", " ", "reg0", ")", ";"],
        text,
    )
}

/// Reads what follows a keyword.
fn keyword_step<'a>(alloc: Global, keyword: Keyword, text: &'a [u8]) -> Read<'a, Step>
    ensures reads { Reads result (reading.keyword_step keyword text.now) }
    ensures left { IfOk result (λ x. length x.1.now ≤ length text.now) }
{
    match keyword {
        Keyword::Next => next(alloc, text),
        Keyword::Output => ended(Step::Output, &[";"], text),
        Keyword::Drop => ended(Step::Drop, &[";"], text),
        Keyword::CtNext => ended(Step::CtNext, &[";"], text),
        Keyword::CtLb => balance(alloc, text),
        Keyword::CtCommit => commit(alloc, text),
        Keyword::CtSnat => snat(alloc, text),
        Keyword::CtDnat => dnat(alloc, text),
        Keyword::PutArp => put_arp(text),
        Keyword::GetArp => get_arp(text),
    }
}

/// Reads an action without a block, where this is wanted: it begins with a keyword or the name of a field.
pub(crate) fn step<'a>(alloc: Global, wanted: Wanted, text: &'a [u8]) -> Read<'a, Step>
    ensures reads { Reads result (reading.step wanted text.now) }
    ensures left { IfOk result (λ x. length x.1.now ≤ length text.now) }
{
    if let Some(keyword) = keyword_of(word(text)) {
        return keyword_step(alloc, keyword, after_word(text));
    }
    match field_of(word(text)) {
        Some(field) => field_step(alloc, field, after_word(text)),
        None => lost(alloc, wanted, text),
    }
}
