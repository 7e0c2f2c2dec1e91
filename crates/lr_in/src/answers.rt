//! What a router answers with, in the place of the packet.
ghost use Rattle.std.specs.Prelude.{◌≡◌, [], ◌∷◌, IfOk};
ghost use Rattle.sb_model.specs.Make.{steps};
ghost use Rattle.lr_rows.specs.Input.{answers_echo, answers_from_port, answers_expired};

use act_core::{Action, Step};
use lr_rows::{becomes, put_becomes, put_takes_over, put_turn_back_late, takes_over};
use nv_base::{Field, Ip4, Items, OutOfMemory};
use sb_model::{DatapathKind, as_ip4, in_decimal};
use std::alloc::Global;

/// The actions that answer an ICMP echo request.
pub(crate) fn answers_echo(alloc: Global) -> Result<Items<Action>, OutOfMemory>
    ensures { IfOk result (λ actions. actions ≡ steps answers_echo) }
{
    let mut actions = Items::with_capacity(alloc, 8)?;
    put_takes_over(&mut actions, Field::EthDst, Field::EthSrc)?;
    put_takes_over(&mut actions, Field::EthSrc, Field::Reg6)?;
    actions.push(Action::Step(Step::Exchange(Field::Ip4Dst, Field::Ip4Src)))?;
    put_becomes(&mut actions, Field::IpTtl, in_decimal(255))?;
    put_becomes(&mut actions, Field::Icmp4Type, in_decimal(0))?;
    put_takes_over(&mut actions, Field::Outport, Field::Inport)?;
    put_becomes(&mut actions, Field::FlagsLoopback, in_decimal(1))?;
    actions.push(Action::Step(Step::Jump {
        egress: true,
        table: DatapathKind::Router.last_table(),
    }))?;
    Ok(actions)
}

/// The block of an answer that has nothing of its own: it comes from the port.
pub(crate) fn answers_plainly(alloc: Global) -> Result<Items<Step>, OutOfMemory>
    ensures { IfOk result (λ steps. steps ≡ answers_from_port []) }
{
    let mut steps = Items::with_capacity(alloc, 4)?;
    steps.push(takes_over(Field::EthSrc, Field::Reg6))?;
    put_turn_back_late(&mut steps)?;
    Ok(steps)
}

/// The block of the ICMP error that the time to live was exceeded, from this address.
pub(crate) fn answers_expired(alloc: Global, addr: Ip4) -> Result<Items<Step>, OutOfMemory>
    ensures { IfOk result (λ steps. steps ≡ answers_expired addr) }
{
    let mut steps = Items::with_capacity(alloc, 7)?;
    steps.push(takes_over(Field::EthSrc, Field::Reg6))?;
    steps.push(becomes(Field::Icmp4Type, in_decimal(11)))?;
    steps.push(becomes(Field::Icmp4Code, in_decimal(0)))?;
    steps.push(becomes(Field::Ip4Src, as_ip4(addr)))?;
    put_turn_back_late(&mut steps)?;
    Ok(steps)
}
