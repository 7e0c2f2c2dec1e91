//! Which action lists are well-formed.
ghost use Rattle.std.specs.Prelude.{◌≡◌, ◌^◌, ◌&&◌, is_some, is_none};
ghost use Rattle.std.specs.List.{list_all};
ghost use Rattle.expr_core.specs.Width.{limit};
ghost use Rattle.act_core.specs.WellFormed as formed;

use crate::{Action, Step, Target};
use expr_core::{Bits, Const, Form, has_bits};
use nv_base::{Ip4, is_quotable};

/// How many bits the numbers have that a form spells.
fn form_width(form: Form) -> u32
    ensures { 2 ^ result ≡ limit form }
{
    match form {
        Form::Dec | Form::Hex => 128,
        Form::Mac => 48,
        Form::Ip4 => 32,
    }
}

/// Whether the constant fits so many bits, and the spelling of its form.
pub fn fits(width: u32, constant: Const) -> bool
    ensures { result ≡ formed.fits width constant }
{
    has_bits(constant.value(), width) && has_bits(constant.value(), form_width(constant.form()))
}

/// Whether the bits lie in a field of this width, the first of them not above the last.
pub fn are_bits_of(width: u8, bits: Bits) -> bool
    ensures { result ≡ formed.are_bits_of width bits }
{
    match bits {
        Bits::Whole => true,
        Bits::Bit(bit) => bit < width,
        Bits::Range(first, last) => first <= last && last < width,
    }
}

// Each address of 32 bits is one.
fn is_address(_addr: Ip4) -> bool
    ensures { result ≡ formed.is_address _addr }
{
    true
}

// Each port of 16 bits is one.
fn is_port(_port: Option<u16>) -> bool
    ensures { result ≡ formed.is_port _port }
{
    true
}

// Each table of 8 bits is one.
fn is_table(_table: u8) -> bool
    ensures { result ≡ formed.is_table _table }
{
    true
}

fn is_target(target: &Target) -> bool
    ensures { result ≡ formed.is_target target.now }
{
    is_address(target.addr) && is_port(target.port)
}

fn all_targets(targets: &[Target]) -> bool
    ensures { result ≡ list_all formed.is_target targets.now }
{
    targets.iter().all(|target| is_target(target))
}

fn all_with_ports(targets: &[Target]) -> bool
    ensures { result ≡ list_all (λ t. is_some t.port) targets.now }
{
    targets.iter().all(|target| target.port.is_some())
}

fn all_without_ports(targets: &[Target]) -> bool
    ensures { result ≡ list_all (λ t. is_none t.port) targets.now }
{
    targets.iter().all(|target| target.port.is_none())
}

// One target or more, with ports in all or none.
fn are_balanced(targets: &[Target]) -> bool
    ensures { result ≡ (formed.has_one targets.now && list_all formed.is_target targets.now && formed.have_ports_or_none targets.now) }
{
    !targets.is_empty()
        && all_targets(targets)
        && (all_with_ports(targets) || all_without_ports(targets))
}

fn is_step(step: &Step) -> bool
    ensures { result ≡ formed.is_step step.now }
{
    match step {
        Step::Set(field, bits, constant) => {
            are_bits_of(field.width(), *bits) && fits(bits.count(field.width()), *constant)
        }
        Step::Copy(field, bits, from) => {
            are_bits_of(field.width(), *bits)
                && u32::from(from.width()) == bits.count(field.width())
        }
        Step::SetOutport(name) => is_quotable(name.as_slice()),
        Step::Exchange(one, other) => one.width() == other.width(),
        Step::CtLbTo(targets) => are_balanced(targets.as_slice()),
        Step::Jump { table, .. } => is_table(*table),
        Step::CtSnatTo(addr) | Step::CtDnatTo(addr) => is_address(*addr),
        _ => true,
    }
}

fn all_steps(steps: &[Step]) -> bool
    ensures { result ≡ list_all formed.is_step steps.now }
{
    steps.iter().all(|step| is_step(step))
}

// One step or more.
fn is_block(steps: &[Step]) -> bool
    ensures { result ≡ formed.is_block steps.now }
{
    !steps.is_empty() && all_steps(steps)
}

fn is_action(action: &Action) -> bool
    ensures { result ≡ formed.is_action action.now }
{
    match action {
        Action::Step(step) => is_step(step),
        Action::Arp(steps)
        | Action::Icmp4(steps)
        | Action::TcpReset(steps)
        | Action::Reject(steps) => is_block(steps.as_slice()),
    }
}

/// Whether an action list is well-formed: each constant fits its part and the spelling of its form, bits lie in their
/// fields, a copied field is as wide as the part that it fills, exchanged fields have one width, a string may hold the
/// name of the output port, a load balancer has one target or more, with ports in all or none, and each block has one
/// action or more.
pub fn is_well_formed(actions: &[Action]) -> bool
    ensures { result ≡ formed.is_well_formed actions.now }
{
    actions.iter().all(|action| is_action(action))
}
