ghost use Rattle.std.specs.Prelude.{◌≡◌, ◌++◌, [], codes, OnOk, OnErr};
ghost use Rattle.nv_base.specs.Growth.{GrowsAtEnd};
ghost use Rattle.expr_core.specs.Text.{truth_text};
ghost use Rattle.act_core.specs.Text.{pipeline_name, port_text, target_text, joined, step_text};
ghost use Rattle.act_core.specs.declared.step.Step.TheVariants.{Jump, Set, Copy, SetOutport, Exchange, CtLbTo, CtCommit, CtSnatTo, CtDnatTo};

use super::part::put_part;
use crate::{Step, Target};
use expr_core::{Bits, Const, put_const};
use nv_base::{Field, Ip4, OutOfMemory, put_dec, put_ip4};

// The name of a pipeline.
fn pipeline_name(egress: bool) -> &'static str
    ensures { result.now ≡ pipeline_name egress }
{
    if egress { "egress" } else { "ingress" }
}

fn put_jump(out: &mut Vec<u8>, egress: bool, table: u8) -> Result<(), OutOfMemory>
    ensures ok { OnOk result (out.new.items ≡ out.old.items ++ step_text (Jump egress table)) }
    ensures err { OnErr result (GrowsAtEnd out.old.items out.new.items) }
{
    out.extend_from_slice(b"next(pipeline=")?;
    out.extend_from_slice(pipeline_name(egress).as_bytes())?;
    out.extend_from_slice(b", table=")?;
    put_dec(out, u128::from(table))?;
    out.extend_from_slice(b");")?;
    Ok(())
}

fn put_set(out: &mut Vec<u8>, field: Field, bits: Bits, constant: Const) -> Result<(), OutOfMemory>
    ensures ok { OnOk result (out.new.items ≡ out.old.items ++ step_text (Set field bits constant)) }
    ensures err { OnErr result (GrowsAtEnd out.old.items out.new.items) }
{
    put_part(out, field, bits)?;
    out.extend_from_slice(b" = ")?;
    put_const(out, constant)?;
    out.extend_from_slice(b";")?;
    Ok(())
}

fn put_copy(out: &mut Vec<u8>, field: Field, bits: Bits, from: Field) -> Result<(), OutOfMemory>
    ensures ok { OnOk result (out.new.items ≡ out.old.items ++ step_text (Copy field bits from)) }
    ensures err { OnErr result (GrowsAtEnd out.old.items out.new.items) }
{
    put_part(out, field, bits)?;
    out.extend_from_slice(b" = ")?;
    out.extend_from_slice(from.name().as_bytes())?;
    out.extend_from_slice(b";")?;
    Ok(())
}

fn put_outport(out: &mut Vec<u8>, name: &[u8]) -> Result<(), OutOfMemory>
    ensures ok { OnOk result (out.new.items ≡ out.old.items ++ step_text (SetOutport name.now)) }
    ensures err { OnErr result (GrowsAtEnd out.old.items out.new.items) }
{
    out.extend_from_slice(b"outport = \"")?;
    out.extend_from_slice(name)?;
    out.extend_from_slice(b"\";")?;
    Ok(())
}

fn put_exchange(out: &mut Vec<u8>, one: Field, other: Field) -> Result<(), OutOfMemory>
    ensures ok { OnOk result (out.new.items ≡ out.old.items ++ step_text (Exchange one other)) }
    ensures err { OnErr result (GrowsAtEnd out.old.items out.new.items) }
{
    out.extend_from_slice(one.name().as_bytes())?;
    out.extend_from_slice(b" <-> ")?;
    out.extend_from_slice(other.name().as_bytes())?;
    out.extend_from_slice(b";")?;
    Ok(())
}

// The port of a target, after `:`.
fn put_port(out: &mut Vec<u8>, port: Option<u16>) -> Result<(), OutOfMemory>
    ensures ok { OnOk result (out.new.items ≡ out.old.items ++ port_text port) }
    ensures err { OnErr result (GrowsAtEnd out.old.items out.new.items) }
{
    if let Some(port) = port {
        out.extend_from_slice(b":")?;
        put_dec(out, u128::from(port))?;
    }
    Ok(())
}

fn put_target(out: &mut Vec<u8>, target: &Target) -> Result<(), OutOfMemory>
    ensures ok { OnOk result (out.new.items ≡ out.old.items ++ target_text target.now) }
    ensures err { OnErr result (GrowsAtEnd out.old.items out.new.items) }
{
    put_ip4(out, target.addr)?;
    put_port(out, target.port)?;
    Ok(())
}

// Targets with `,` between.
fn put_targets(out: &mut Vec<u8>, targets: &[Target]) -> Result<(), OutOfMemory>
    ensures ok { OnOk result (out.new.items ≡ out.old.items ++ joined target_text [] (codes ",") targets.now) }
    ensures err { OnErr result (GrowsAtEnd out.old.items out.new.items) }
{
    let mut front = b"".as_slice();
    for target in targets {
        out.extend_from_slice(front)?;
        put_target(out, target)?;
        front = b",".as_slice();
    }
    Ok(())
}

fn put_balanced(out: &mut Vec<u8>, targets: &[Target]) -> Result<(), OutOfMemory>
    ensures ok { OnOk result (out.new.items ≡ out.old.items ++ step_text (CtLbTo targets.now)) }
    ensures err { OnErr result (GrowsAtEnd out.old.items out.new.items) }
{
    out.extend_from_slice(b"ct_lb(backends=")?;
    put_targets(out, targets)?;
    out.extend_from_slice(b");")?;
    Ok(())
}

// A truth as a number.
fn truth_text(holds: bool) -> &'static str
    ensures { result.now ≡ truth_text holds }
{
    if holds { "1" } else { "0" }
}

fn put_truth(out: &mut Vec<u8>, holds: bool) -> Result<(), OutOfMemory>
    ensures ok { OnOk result (out.new.items ≡ out.old.items ++ truth_text holds) }
    ensures err { OnErr result (GrowsAtEnd out.old.items out.new.items) }
{
    out.extend_from_slice(truth_text(holds).as_bytes())?;
    Ok(())
}

fn put_commit(out: &mut Vec<u8>, blocked: bool) -> Result<(), OutOfMemory>
    ensures ok { OnOk result (out.new.items ≡ out.old.items ++ step_text (CtCommit blocked)) }
    ensures err { OnErr result (GrowsAtEnd out.old.items out.new.items) }
{
    out.extend_from_slice(b"ct_commit { ct_mark.blocked = ")?;
    put_truth(out, blocked)?;
    out.extend_from_slice(b"; };")?;
    Ok(())
}

fn put_snat(out: &mut Vec<u8>, addr: Ip4) -> Result<(), OutOfMemory>
    ensures ok { OnOk result (out.new.items ≡ out.old.items ++ step_text (CtSnatTo addr)) }
    ensures err { OnErr result (GrowsAtEnd out.old.items out.new.items) }
{
    out.extend_from_slice(b"ct_snat(")?;
    put_ip4(out, addr)?;
    out.extend_from_slice(b");")?;
    Ok(())
}

fn put_dnat(out: &mut Vec<u8>, addr: Ip4) -> Result<(), OutOfMemory>
    ensures ok { OnOk result (out.new.items ≡ out.old.items ++ step_text (CtDnatTo addr)) }
    ensures err { OnErr result (GrowsAtEnd out.old.items out.new.items) }
{
    out.extend_from_slice(b"ct_dnat(")?;
    put_ip4(out, addr)?;
    out.extend_from_slice(b");")?;
    Ok(())
}

// A text that says all.
fn put_text(out: &mut Vec<u8>, text: &str) -> Result<(), OutOfMemory>
    ensures ok { OnOk result (out.new.items ≡ out.old.items ++ text.now) }
    ensures err { OnErr result (GrowsAtEnd out.old.items out.new.items) }
{
    out.extend_from_slice(text.as_bytes())?;
    Ok(())
}

/// Appends an action without a block.
pub(super) fn put_step(out: &mut Vec<u8>, step: &Step) -> Result<(), OutOfMemory>
    ensures ok { OnOk result (out.new.items ≡ out.old.items ++ step_text step.now) }
    ensures err { OnErr result (GrowsAtEnd out.old.items out.new.items) }
{
    match step {
        Step::Next => put_text(out, "next;"),
        Step::Jump { egress, table } => put_jump(out, *egress, *table),
        Step::Output => put_text(out, "output;"),
        Step::Drop => put_text(out, "drop;"),
        Step::Set(field, bits, constant) => put_set(out, *field, *bits, *constant),
        Step::Copy(field, bits, from) => put_copy(out, *field, *bits, *from),
        Step::SetOutport(name) => put_outport(out, name.as_slice()),
        Step::Exchange(one, other) => put_exchange(out, *one, *other),
        Step::DecTtl => put_text(out, "ip.ttl--;"),
        Step::CtNext => put_text(out, "ct_next;"),
        Step::CtLb => put_text(out, "ct_lb;"),
        Step::CtLbTo(targets) => put_balanced(out, targets.as_slice()),
        Step::CtCommit { blocked } => put_commit(out, *blocked),
        Step::CtSnat => put_text(out, "ct_snat;"),
        Step::CtSnatTo(addr) => put_snat(out, *addr),
        Step::CtDnat => put_text(out, "ct_dnat;"),
        Step::CtDnatTo(addr) => put_dnat(out, *addr),
        Step::PutArp => put_text(out, "put_arp(inport, arp.spa, arp.sha);"),
        Step::GetArp => put_text(out, "get_arp(outport, reg0);"),
    }
}
