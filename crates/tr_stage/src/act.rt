//! What the actions of a row do to a packet.
ghost use Rattle.std.specs.Prelude.{◌≡◌, IsTrue, [], ◌∷◌, Some};
ghost use Rattle.act_core.specs.WellFormed.{is_step, is_action};
ghost use Rattle.expr_core.specs.Lookup.{Lookup};
ghost use Rattle.pkt_core.specs.Packet.{Values};
ghost use Rattle.sb_model.specs.declared.stage.Stage as stages;
ghost use Rattle.tr_stage.specs.Machine.{number_of, effect, run_actions};
ghost use Rattle.tr_stage.specs.Machine.Effect.{Changed, Done};
ghost use Rattle.tr_stage.specs.Runnable.{is_change, may_end, may_be_last};
ghost use Rattle.tr_stage.specs.Ending.{with_packet};

use crate::block::{answer, answer_for, arp_for, error_for, reset_for, run_block};
use crate::cause::cause_at;
use crate::part::set_part;
use crate::{Answer, Cause};
use act_core::{Action, Step};
use expr_core::Env;
use nv_base::{FLOOD_GROUP, FLOOD_NUMBER, Field, Name, UNKNOWN_GROUP, UNKNOWN_NUMBER};
use pkt_core::Packet;
use sb_model::{Pipeline, Stage};

/// How a packet's step through a stage ends, but for the packet.
#[derive(Clone, Copy)]
pub enum Ending {
    /// It goes on at this stage.
    On(Stage),
    /// It goes out of this pipeline.
    Sent(Pipeline),
    /// It leaves ingress for the table of egress of this number.
    Left(u8),
    /// It was made in the place of another, as the answer says, and goes on at the table of egress of this number.
    Made(u8, Answer),
    /// It is dropped.
    Dropped(Cause),
}

/// Does an action of a row that others may follow: an assignment, an exchange, or `ip.ttl--`, which stops at zero.
pub fn change<E: Env>(env: &E, step: &Step, packet: &mut Packet)
    requires formed { IsTrue (is_step step.now) }
    requires change { IsTrue (is_change (E.lookup env.now) step.now) }
    ensures { (stage : stages.Stage) → effect (E.lookup env.now) stage step.now packet.old ≡ Changed packet.new }
{
    match step {
        Step::Set(field, bits, constant) => set_part(packet, *field, *bits, constant.value()),
        Step::Copy(field, bits, from) => {
            let number = packet.get(*from);
            set_part(packet, *field, *bits, number);
        }
        Step::SetOutport(name) => match number_of(env, name) {
            Some(number) => packet.set(Field::Outport, u128::from(number)),
            None => unreachable!(),
        },
        Step::Exchange(one, other) => packet.exchange(*one, *other),
        Step::DecTtl => {
            let hops = packet.get(Field::IpTtl).saturating_sub(1);
            packet.set(Field::IpTtl, hops);
        }
        _ => unreachable!(),
    }
}

/// Does the last action of a row, one that asks for no connection, and answers how the step ends.
pub fn end<E: Env>(env: &E, stage: Stage, last: &Action, packet: &mut Packet) -> Ending
    requires formed { IsTrue (is_action last.now) }
    requires last { IsTrue (may_be_last (E.lookup env.now) stage last.now) }
    ensures { run_actions (E.lookup env.now) stage (last.now ∷ []) packet.old ≡ with_packet result packet.new }
{
    match last {
        Action::Step(step) => end_step(stage, step),
        Action::TcpReset(block) => {
            let reply = reset_for(packet);
            answer(env, stage, block.as_slice(), reply, packet)
        }
        Action::Icmp4(block) => {
            let reply = error_for(packet);
            answer(env, stage, block.as_slice(), reply, packet)
        }
        Action::Reject(block) => {
            let reply = answer_for(packet);
            answer(env, stage, block.as_slice(), reply, packet)
        }
        Action::Arp(block) => {
            *packet = arp_for(packet);
            Ending::Made(
                run_block(env, stage, Answer::Arp, block.as_slice(), packet),
                Answer::Arp,
            )
        }
    }
}

// Does the last action of a row, one without a block.
fn end_step(stage: Stage, step: &Step) -> Ending
    requires { IsTrue (may_end stage step.now) }
    ensures { (net : Lookup) (packet : Values) → effect net stage step.now packet ≡ Done (with_packet result packet) }
{
    match step {
        Step::Next => match stage.next() {
            Some(next) => Ending::On(next),
            None => unreachable!(),
        },
        Step::Output => Ending::Sent(stage.pipeline()),
        Step::Drop => Ending::Dropped(cause_at(stage)),
        Step::Jump {
            egress: true,
            table,
        } => Ending::Left(*table),
        _ => unreachable!(),
    }
}

// What `outport` becomes for a name.
fn number_of<E: Env>(env: &E, name: &Name) -> Option<u32>
    ensures { result ≡ number_of (E.lookup env.now) name.now }
{
    if name.as_slice() == FLOOD_GROUP.as_slice() {
        Some(FLOOD_NUMBER)
    } else if name.as_slice() == UNKNOWN_GROUP.as_slice() {
        Some(UNKNOWN_NUMBER)
    } else {
        env.port(name).map(|port| port.0)
    }
}
