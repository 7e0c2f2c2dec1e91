//! What the rows of a VIP are made of, at a switch and at a router.
ghost use Rattle.std.specs.Prelude.{◌≡◌, ◌++◌, map, IfOk, OnOk};
ghost use Rattle.net_rows.specs.Build.{vip_input};
ghost use Rattle.net_rows.specs.LoadBalancers.{balances_to, is_to_port, opens, port_field, priority_of_vip, target_of};

use crate::VipInput;
use act_core::{Step, Target};
use expr_core::{Pred, Typed};
use nb_records::{Backend, Lb, Proto, Vip};
use nv_base::{Field, Items, Kept, OutOfMemory};
use sb_model::{as_ip4, equals, in_decimal, predicate};
use std::alloc::Global;

/// What the rows of a VIP depend on. Where memory runs out the answer is `OutOfMemory`.
pub fn vip_input(alloc: Global, lb: &Lb, vip: &Vip) -> Result<VipInput, OutOfMemory>
    ensures { IfOk result (λ input. input ≡ vip_input lb.now vip.now) }
{
    Ok(VipInput {
        at: vip.at,
        proto: lb.proto,
        backends: vip.backends.copy(alloc)?,
    })
}

/// The priority of the rows of a VIP: one with a port comes before one without.
pub fn priority_of_vip(port: Option<u16>) -> u16
    ensures { result ≡ priority_of_vip port }
{
    match port {
        None => 110,
        Some(_) => 120,
    }
}

/// The action that binds a packet to one of the backends, and sends it there. Where memory runs out the answer is `OutOfMemory`.
pub fn balances_to(alloc: Global, backends: &[Backend]) -> Result<Step, OutOfMemory>
    ensures { IfOk result (λ step. step ≡ balances_to backends.now) }
{
    Ok(Step::CtLbTo(targets_of(alloc, backends)?))
}

// The backends, as what a packet is sent to.
fn targets_of(alloc: Global, backends: &[Backend]) -> Result<Items<Target>, OutOfMemory>
    ensures { IfOk result (λ targets. targets ≡ map target_of backends.now) }
{
    let mut targets = Items::with_capacity(alloc, backends.len())?;
    for backend in backends {
        targets.push(target_of(*backend))?;
    }
    Ok(targets)
}

fn target_of(backend: Backend) -> Target
    ensures { result ≡ target_of backend }
{
    Target {
        addr: backend.addr,
        port: backend.port,
    }
}

/// The match of a new connection to the VIP. Where memory runs out the answer is `OutOfMemory`.
pub fn opens(alloc: Global, input: &VipInput) -> Result<Typed, OutOfMemory>
    ensures { IfOk result (λ t. t ≡ opens input.now) }
{
    let mut terms = Items::with_capacity(alloc, 3)?;
    terms.push(predicate(Pred::CtNew))?;
    terms.push(equals(Field::Ip4Dst, as_ip4(input.at.addr)))?;
    put_port(&mut terms, input.proto, input.at.port)?;
    Ok(Typed::conjunction(terms))
}

// Puts the port that the VIP has last, where it has one.
fn put_port(terms: &mut Items<Typed>, proto: Proto, port: Option<u16>) -> Result<(), OutOfMemory>
    ensures { OnOk result (terms.new ≡ terms.old ++ is_to_port proto port) }
{
    match port {
        None => Ok(()),
        Some(port) => terms.push(equals(port_field(proto), in_decimal(u128::from(port)))),
    }
}

// The destination port of a protocol.
fn port_field(proto: Proto) -> Field
    ensures { result ≡ port_field proto }
{
    match proto {
        Proto::Tcp => Field::TcpDst,
        Proto::Udp => Field::UdpDst,
    }
}
