ghost use Rattle.act_core.specs.inner.Exact as tells;

use crate::{Action, Step, Target};
use nv_base::{Kept, OutOfMemory};
use std::alloc::Global;

impl Kept for Target {
    ghost exact = { tells.target };

    fn copy(&self, _alloc: Global) -> Result<Self, OutOfMemory> {
        Ok(*self)
    }
}

impl Kept for Step {
    ghost exact = { tells.step };

    fn copy(&self, alloc: Global) -> Result<Self, OutOfMemory> {
        Ok(match self {
            Step::Next => Step::Next,
            Step::Jump { egress, table } => Step::Jump {
                egress: *egress,
                table: *table,
            },
            Step::Output => Step::Output,
            Step::Drop => Step::Drop,
            Step::Set(field, bits, constant) => Step::Set(*field, *bits, *constant),
            Step::Copy(field, bits, from) => Step::Copy(*field, *bits, *from),
            Step::SetOutport(name) => Step::SetOutport(name.copy(alloc)?),
            Step::Exchange(one, other) => Step::Exchange(*one, *other),
            Step::DecTtl => Step::DecTtl,
            Step::CtNext => Step::CtNext,
            Step::CtLb => Step::CtLb,
            Step::CtLbTo(targets) => Step::CtLbTo(targets.copy(alloc)?),
            Step::CtCommit { blocked } => Step::CtCommit { blocked: *blocked },
            Step::CtSnat => Step::CtSnat,
            Step::CtSnatTo(addr) => Step::CtSnatTo(*addr),
            Step::CtDnat => Step::CtDnat,
            Step::CtDnatTo(addr) => Step::CtDnatTo(*addr),
            Step::PutArp => Step::PutArp,
            Step::GetArp => Step::GetArp,
        })
    }
}

impl Kept for Action {
    ghost exact = { tells.action };

    fn copy(&self, alloc: Global) -> Result<Self, OutOfMemory> {
        Ok(match self {
            Action::Step(step) => Action::Step(step.copy(alloc)?),
            Action::Arp(steps) => Action::Arp(steps.copy(alloc)?),
            Action::Icmp4(steps) => Action::Icmp4(steps.copy(alloc)?),
            Action::TcpReset(steps) => Action::TcpReset(steps.copy(alloc)?),
            Action::Reject(steps) => Action::Reject(steps.copy(alloc)?),
        })
    }
}
