//! What a row with a block does: the packet that answers another, and its way out.
ghost use Rattle.std.specs.Prelude.{◌≡◌, IsTrue, Some};
ghost use Rattle.std.specs.List.{list_all};
ghost use Rattle.act_core.specs.WellFormed.{is_step};
ghost use Rattle.pkt_core.specs.Packet.{Values};
ghost use Rattle.tr_stage.specs.declared.outcome.Outcome.TheVariants.{Made};
ghost use Rattle.tr_stage.specs.Machine.{reset_for, error_for, answer_for, arp_for, answered, end_block, run_block};
ghost use Rattle.tr_stage.specs.Machine.StageEnd.{Ends};
ghost use Rattle.tr_stage.specs.Runnable.{may_end_block, is_block, may_answer};
ghost use Rattle.tr_stage.specs.Ending.{with_packet};

use crate::Answer;
use crate::act::{Ending, change};
use crate::cause::cause_at;
use act_core::Step;
use expr_core::Env;
use nv_base::{Field, Prerequisite};
use pkt_core::{IcmpReason, Packet};
use sb_model::Stage;

/// The TCP reset that answers a packet, if one may.
pub(crate) fn reset_for(packet: &Packet) -> Option<Packet>
    ensures { result ≡ reset_for packet.now }
{
    if packet.is_answerable() && packet.meets(Prerequisite::Tcp) {
        Some(packet.reset())
    } else {
        None
    }
}

/// The ICMP error that answers a packet, if one may.
pub(crate) fn error_for(packet: &Packet) -> Option<Packet>
    ensures { result ≡ error_for packet.now }
{
    if packet.is_answerable() {
        Some(packet.icmp_error(IcmpReason::PortUnreachable))
    } else {
        None
    }
}

/// What answers a packet that is rejected, if anything may.
pub(crate) fn answer_for(packet: &Packet) -> Option<Packet>
    ensures { result ≡ answer_for packet.now }
{
    if packet.meets(Prerequisite::Tcp) {
        reset_for(packet)
    } else {
        error_for(packet)
    }
}

/// The ARP packet that takes the place of a packet.
pub(crate) fn arp_for(packet: &Packet) -> Packet
    ensures { result ≡ arp_for packet.now }
{
    let mut arp = packet.workings();
    arp.set(Field::EthSrc, packet.get(Field::EthSrc));
    arp.set(Field::EthDst, packet.get(Field::EthDst));
    arp.set(Field::EthType, 0x806);
    arp.set(Field::ArpSha, packet.get(Field::EthSrc));
    arp
}

/// Runs a block on the packet that answers this one, which it becomes. One that may not be answered is dropped.
pub(crate) fn answer<E: Env>(
    env: &E,
    stage: Stage,
    block: &[Step],
    reply: Option<Packet>,
    packet: &mut Packet,
) -> Ending
    requires formed { IsTrue (list_all is_step block.now) }
    requires block { IsTrue (may_answer (E.lookup env.now) stage block.now) }
    ensures { answered (E.lookup env.now) stage block.now reply ≡ with_packet result packet.new }
{
    match reply {
        Some(reply) => {
            *packet = reply;
            Ending::Made(
                run_block(env, stage, Answer::Reject, block, packet),
                Answer::Reject,
            )
        }
        None => Ending::Dropped(cause_at(stage)),
    }
}

/// Does what a block says to the packet that is made, and answers the number of the table of egress that this goes out of.
pub(crate) fn run_block<E: Env>(
    env: &E,
    stage: Stage,
    answer: Answer,
    block: &[Step],
    packet: &mut Packet,
) -> u8
    requires formed { IsTrue (list_all is_step block.now) }
    requires block { IsTrue (is_block (E.lookup env.now) stage block.now) }
    ensures { run_block (E.lookup env.now) stage answer block.now packet.old ≡ Ends (Some (Made packet.new result answer)) }
{
    let mut rest = block;
    while let Some((step, others)) = rest.split_first() {
        if others.is_empty() {
            return end_block(stage, answer, step);
        }
        change(env, step, packet);
        rest = others;
    }
    unreachable!()
}

// The last action of a block.
fn end_block(stage: Stage, answer: Answer, step: &Step) -> u8
    requires { IsTrue (may_end_block stage step.now) }
    ensures { (packet : Values) → end_block stage answer step.now packet ≡ Ends (Some (Made packet result answer)) }
{
    match step {
        Step::Output => 0,
        Step::Jump {
            egress: true,
            table,
        } => *table,
        _ => unreachable!(),
    }
}
