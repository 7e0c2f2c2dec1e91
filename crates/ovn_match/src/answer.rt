use crate::nothing::Nothing;
use expr_check::{Role, TypeFault, a_checked_match_is_well_typed, check};
use expr_core::{Expr, Typed, put_tree};
use expr_eval::holds;
use expr_parse::{MatchFault, parse_match};
use nv_base::{Field, OutOfMemory, put_dec, put_field};
use pkt_core::{Packet, put_packet};
use pkt_micro::{Micro, MicroFault, packet_of};
use std::alloc::Global;

/// What is asked of a match.
#[derive(Drop)]
enum Question {
    /// Whether it can be read.
    Read,
    /// Whether it is allowed in this role too.
    Check(Role),
    /// Which port and packet it says, as a microflow.
    Packet,
}

/// Why the answer to a line is no match.
enum Fault {
    /// A fault, and its offset in bytes.
    At(&'static str, u32),
    /// The match has 4 GiB or more.
    TooLong,
    /// It is no microflow.
    Micro(MicroFault),
    /// There was no memory.
    Memory,
}

impl From<OutOfMemory> for Fault {
    fn from(_: OutOfMemory) -> Self {
        Fault::Memory
    }
}

impl From<MatchFault> for Fault {
    fn from(fault: MatchFault) -> Self {
        match fault {
            MatchFault::Syntax(offset) => Fault::At("syntax", offset),
            MatchFault::Mixed(offset) => Fault::At("mixed", offset),
            MatchFault::TooDeep(offset) => Fault::At("too-deep", offset),
            MatchFault::Memory => Fault::Memory,
        }
    }
}

impl From<TypeFault> for Fault {
    fn from(fault: TypeFault) -> Self {
        match fault {
            TypeFault::UnknownField(offset) => Fault::At("unknown-field", offset),
            TypeFault::WrongWidth(offset) => Fault::At("wrong-width", offset),
            TypeFault::WrongForm(offset) => Fault::At("wrong-form", offset),
            TypeFault::NotAllowedHere(offset) => Fault::At("not-allowed-here", offset),
            TypeFault::Memory => Fault::Memory,
        }
    }
}

impl From<MicroFault> for Fault {
    fn from(fault: MicroFault) -> Self {
        match fault {
            MicroFault::Memory => Fault::Memory,
            fault => Fault::Micro(fault),
        }
    }
}

/// What a line asks, and of which match. Without a word the question is whether a row may have the match.
fn split_question(line: &[u8]) -> (Question, &[u8]) {
    if let Some(text) = line.strip_prefix(b"%read ") {
        (Question::Read, text)
    } else if let Some(text) = line.strip_prefix(b"%acl-from ") {
        (Question::Check(Role::AclFrom), text)
    } else if let Some(text) = line.strip_prefix(b"%acl-to ") {
        (Question::Check(Role::AclTo), text)
    } else if let Some(text) = line.strip_prefix(b"%microflow ") {
        (Question::Check(Role::Micro), text)
    } else if let Some(text) = line.strip_prefix(b"%packet ") {
        (Question::Packet, text)
    } else {
        (Question::Check(Role::Row), line)
    }
}

/// How often the match holds of so many TCP packets to port 65535, from port 0 on, with all else zero.
fn count(typed: &Typed, times: u32) -> u32 {
    let mut packet = Packet::zero();
    packet.set(Field::EthType, 0x800);
    packet.set(Field::IpProto, 6);
    packet.set(Field::TcpDst, 0xffff);
    let mut count: u32 = 0;
    for turn in 0..times {
        packet.set(Field::TcpSrc, u128::from(turn % 0x1_0000));
        if holds(typed, &packet, &Nothing) {
            count = count.saturating_add(1);
        }
    }
    count
}

fn put_match(out: &mut Vec<u8>, typed: &Typed, times: u32) -> Result<(), OutOfMemory> {
    put_tree(out, typed)?;
    if times > 0 {
        out.extend_from_slice(b"\nholds ")?;
        put_dec(out, u128::from(count(typed, times)))?;
    }
    Ok(())
}

/// The port and the packet that the match says.
fn microflow(alloc: Global, expr: &Expr) -> Result<Micro, Fault> {
    let typed = check(alloc, expr, Role::Micro)?;
    a_checked_match_is_well_typed();
    Ok(packet_of(alloc, &typed)?)
}

/// Appends the port and the packet, as a match that says them.
fn put_microflow(out: &mut Vec<u8>, micro: &Micro) -> Result<(), OutOfMemory> {
    out.extend_from_slice(b"inport == \"")?;
    out.extend_from_slice(micro.inport.as_slice())?;
    out.extend_from_slice(b"\" && ")?;
    put_packet(out, &micro.packet)
}

/// Appends the canonical text of the match in this role, and how often it held if that was asked.
fn put_checked(
    alloc: Global,
    out: &mut Vec<u8>,
    expr: &Expr,
    role: Role,
    times: u32,
) -> Result<(), Fault> {
    let typed = check(alloc, expr, role)?;
    Ok(put_match(out, &typed, times)?)
}

/// Appends what the match says as a microflow.
fn put_packet_of(alloc: Global, out: &mut Vec<u8>, expr: &Expr) -> Result<(), Fault> {
    let micro = microflow(alloc, expr)?;
    Ok(put_microflow(out, &micro)?)
}

/// Appends what is asked of the match.
fn put_reply(
    alloc: Global,
    out: &mut Vec<u8>,
    question: Question,
    expr: &Expr,
    times: u32,
) -> Result<(), Fault> {
    match question {
        Question::Read => Ok(put_tree(out, expr)?),
        Question::Check(role) => put_checked(alloc, out, expr, role, times),
        Question::Packet => put_packet_of(alloc, out, expr),
    }
}

/// Appends the canonical text of the match, and how often it held if that was asked, or what it says as a microflow.
fn put_text(alloc: Global, out: &mut Vec<u8>, line: &[u8], times: u32) -> Result<(), Fault> {
    let (question, text) = split_question(line);
    if text.len() > u32::MAX as usize {
        return Err(Fault::TooLong);
    }
    let expr = parse_match(alloc, text)?;
    put_reply(alloc, out, question, &expr, times)
}

fn put_fault(out: &mut Vec<u8>, name: &str, offset: u32) -> Result<(), OutOfMemory> {
    out.extend_from_slice(name.as_bytes())?;
    out.extend_from_slice(b" ")?;
    put_dec(out, u128::from(offset))?;
    Ok(())
}

fn put_micro_fault(out: &mut Vec<u8>, fault: MicroFault) -> Result<(), OutOfMemory> {
    match fault {
        MicroFault::NotConjunction => out.extend_from_slice(b"NotConjunction")?,
        MicroFault::Contradiction(field) => {
            out.extend_from_slice(b"Contradiction ")?;
            put_field(out, field)?;
        }
        MicroFault::NoInport => out.extend_from_slice(b"NoInport")?,
        MicroFault::Memory => return Err(OutOfMemory),
    }
    Ok(())
}

/// Appends the answer to a line: the match's canonical text, and how often it held if that was asked; or what it says as
/// a microflow; or its fault.
pub(crate) fn put_answer(
    alloc: Global,
    out: &mut Vec<u8>,
    line: &[u8],
    times: u32,
) -> Result<(), OutOfMemory> {
    match put_text(alloc, out, line, times) {
        Ok(()) => {}
        Err(Fault::At(name, offset)) => put_fault(out, name, offset)?,
        Err(Fault::TooLong) => out.extend_from_slice(b"too-long")?,
        Err(Fault::Micro(fault)) => put_micro_fault(out, fault)?,
        Err(Fault::Memory) => return Err(OutOfMemory),
    }
    out.push(b'\n')?;
    Ok(())
}
