//! What is done to a packet that is routed.
ghost use Rattle.std.specs.Prelude.{◌≡◌, ◌++◌, IfOk, OnOk};
ghost use Rattle.sb_model.specs.Make.{steps};
ghost use Rattle.lr_rows.specs.Routes.{leaves_by, routes_directly, routes_over};

use act_core::{Action, Step};
use lr_rows::{Exit, put_becomes, put_takes_over};
use nv_base::{Field, Ip4, Items, OutOfMemory};
use sb_model::{as_ip4, as_mac, in_decimal};
use std::alloc::Global;

// Puts last that a packet is to leave by a port.
fn put_leaving(actions: &mut Items<Action>, exit: Exit) -> Result<(), OutOfMemory>
    ensures { OnOk result (actions.new ≡ actions.old ++ steps (leaves_by exit)) }
{
    put_becomes(actions, Field::Reg1, as_ip4(exit.addr))?;
    put_becomes(actions, Field::EthSrc, as_mac(exit.mac))?;
    actions.push(Action::Step(Step::SetOutport(exit.name)))?;
    put_becomes(actions, Field::FlagsLoopback, in_decimal(1))?;
    actions.push(Action::Step(Step::Next))?;
    Ok(())
}

/// The packet leaves by a port for its destination itself.
pub(crate) fn routes_directly(alloc: Global, exit: Exit) -> Result<Items<Action>, OutOfMemory>
    ensures { IfOk result (λ actions. actions ≡ steps (routes_directly exit)) }
{
    let mut actions = Items::with_capacity(alloc, 7)?;
    actions.push(Action::Step(Step::DecTtl))?;
    put_takes_over(&mut actions, Field::Reg0, Field::Ip4Dst)?;
    put_leaving(&mut actions, exit)?;
    Ok(actions)
}

/// The packet leaves by a port for the next router.
pub(crate) fn routes_over(
    alloc: Global,
    nexthop: Ip4,
    exit: Exit,
) -> Result<Items<Action>, OutOfMemory>
    ensures { IfOk result (λ actions. actions ≡ steps (routes_over nexthop exit)) }
{
    let mut actions = Items::with_capacity(alloc, 7)?;
    actions.push(Action::Step(Step::DecTtl))?;
    put_becomes(&mut actions, Field::Reg0, as_ip4(nexthop))?;
    put_leaving(&mut actions, exit)?;
    Ok(actions)
}
