//! Where a load balancer sends packets.
ghost use Rattle.std.specs.Prelude.{◌≡◌, ◌≤◌, length, IfOk};
ghost use Rattle.act_parse.specs.inner.Reading as reading;
ghost use Rattle.act_parse.specs.inner.Gives.{Reads};

use crate::lexer::{after, is_at, token};
use crate::number::{decimal, ip4};
use crate::stop::Read;
use act_core::Target;
use nv_base::{Ip4, Items};
use std::alloc::Global;

/// Reads `:` and a port, where the target has one.
fn port<'a>(alloc: Global, has_port: bool, addr: Ip4, text: &'a [u8]) -> Read<'a, Target>
    ensures reads { Reads result (reading.port has_port addr text.now) }
    ensures left { IfOk result (λ x. length x.1.now ≤ length text.now) }
{
    if has_port {
        let ((), rest) = token(":", text)?;
        let (port, rest) = decimal(alloc, 0, 65536, rest)?;
        let port = Some(port as u16);
        Ok((Target { addr, port }, rest))
    } else {
        Ok((Target { addr, port: None }, text))
    }
}

/// Reads a target, whose port is there if those of the others are.
fn target<'a>(alloc: Global, has_port: bool, text: &'a [u8]) -> Read<'a, Target>
    ensures reads { Reads result (reading.target has_port text.now) }
    ensures left { IfOk result (λ x. length x.1.now ≤ length text.now) }
{
    let (addr, rest) = ip4(alloc, text)?;
    port(alloc, has_port, addr, rest)
}

/// Reads the first target.
fn first_target<'a>(alloc: Global, text: &'a [u8]) -> Read<'a, Target>
    ensures reads { Reads result (reading.first_target text.now) }
    ensures left { IfOk result (λ x. length x.1.now ≤ length text.now) }
{
    let (addr, rest) = ip4(alloc, text)?;
    port(alloc, is_at(b":", rest), addr, rest)
}

/// Reads targets with `,` between.
pub(crate) fn all_targets<'a>(alloc: Global, text: &'a [u8]) -> Read<'a, Items<Target>>
    ensures reads { Reads result (reading.all_targets text.now) }
    ensures left { IfOk result (λ x. length x.1.now ≤ length text.now) }
{
    let (first, mut left) = first_target(alloc, text)?;
    let has_port = first.port.is_some();
    let mut targets = Items::new(alloc);
    targets.push(first)?;
    while let Some(rest) = after(",", left) {
        let (next, rest) = target(alloc, has_port, rest)?;
        targets.push(next)?;
        left = rest;
    }
    Ok((targets, left))
}
