//! Action lists as text.
ghost use Rattle.std.specs.Prelude.{◌≡◌, [], ◌++◌, OnOk, OnErr};
ghost use Rattle.nv_base.specs.Growth.{GrowsAtEnd};
ghost use Rattle.act_core.specs.Text.{spaced_text, block_text, action_text, joined, actions_text};

mod part;
mod step;

use crate::{Action, Step};
use nv_base::OutOfMemory;
use step::put_step;

// A step, and a space after it.
fn put_spaced_step(out: &mut Vec<u8>, step: &Step) -> Result<(), OutOfMemory>
    ensures ok { OnOk result (out.new.items ≡ out.old.items ++ spaced_text step.now) }
    ensures err { OnErr result (GrowsAtEnd out.old.items out.new.items) }
{
    put_step(out, step)?;
    out.extend_from_slice(b" ")?;
    Ok(())
}

// Steps, a space after each.
fn put_spaced_steps(out: &mut Vec<u8>, steps: &[Step]) -> Result<(), OutOfMemory>
    ensures ok { OnOk result (out.new.items ≡ out.old.items ++ joined spaced_text [] [] steps.now) }
    ensures err { OnErr result (GrowsAtEnd out.old.items out.new.items) }
{
    for step in steps {
        put_spaced_step(out, step)?;
    }
    Ok(())
}

// A block: its name, and its steps in braces.
fn put_block(out: &mut Vec<u8>, name: &str, steps: &[Step]) -> Result<(), OutOfMemory>
    ensures ok { OnOk result (out.new.items ≡ out.old.items ++ block_text name.now steps.now) }
    ensures err { OnErr result (GrowsAtEnd out.old.items out.new.items) }
{
    out.extend_from_slice(name.as_bytes())?;
    out.extend_from_slice(b" { ")?;
    put_spaced_steps(out, steps)?;
    out.extend_from_slice(b"};")?;
    Ok(())
}

fn put_action(out: &mut Vec<u8>, action: &Action) -> Result<(), OutOfMemory>
    ensures ok { OnOk result (out.new.items ≡ out.old.items ++ action_text action.now) }
    ensures err { OnErr result (GrowsAtEnd out.old.items out.new.items) }
{
    match action {
        Action::Step(step) => put_step(out, step),
        Action::Arp(steps) => put_block(out, "arp", steps.as_slice()),
        Action::Icmp4(steps) => put_block(out, "icmp4", steps.as_slice()),
        Action::TcpReset(steps) => put_block(out, "tcp_reset", steps.as_slice()),
        Action::Reject(steps) => put_block(out, "reject", steps.as_slice()),
    }
}

// What stands between an action and the one before it, where there is one.
fn put_front(out: &mut Vec<u8>, front: &[u8]) -> Result<(), OutOfMemory>
    ensures ok { OnOk result (out.new.items ≡ out.old.items ++ front.now) }
    ensures err { OnErr result (out.new.items ≡ out.old.items) }
{
    if front.is_empty() {
        return Ok(());
    }
    out.extend_from_slice(front)?;
    Ok(())
}

/// Appends the text of an action list: `;` ends each action, and one space separates two. After `OutOfMemory` the bytes
/// before are first, and part of the text may follow.
pub fn put_actions(out: &mut Vec<u8>, actions: &[Action]) -> Result<(), OutOfMemory>
    ensures ok { OnOk result (out.new.items ≡ out.old.items ++ actions_text actions.now) }
    ensures err { OnErr result (GrowsAtEnd out.old.items out.new.items) }
{
    let mut front = b"".as_slice();
    for action in actions {
        put_front(out, front)?;
        put_action(out, action)?;
        front = b" ".as_slice();
    }
    Ok(())
}
