ghost use Rattle.std.specs.Prelude.{◌≡◌, IfOk};
ghost use Rattle.expr_sets.specs.Members.{Members};

use expr_core::Env;
use nv_base::{Items, ObjId, OutOfMemory};
use std::alloc::Global;

/// A number, and the bits of it that count.
#[derive(Clone, Copy, PartialEq, Eq)]
pub struct Masked {
    /// The number.
    pub number: u128,
    /// The bits that count.
    pub mask: u128,
}

/// What a match looks up, where the members of sets and groups are told one by one.
pub trait SetMembers: Env {
    /// The members of the sets and groups, as a value.
    ghost members: { Self → Members };

    /// The members of the address set of this name which are numbers of so many bits, in stored order. Where memory runs
    /// out the answer is `OutOfMemory`.
    fn members_of_set(
        &self,
        alloc: Global,
        name: &[u8],
        width: u8,
    ) -> Result<Items<Masked>, OutOfMemory>
        ensures { IfOk result (λ listed. listed ≡ (members self.now).of_set name.now width) };

    /// The ports of the port group of this name, in stored order. Where memory runs out the answer is `OutOfMemory`.
    fn ports_of_group(&self, alloc: Global, name: &[u8]) -> Result<Items<ObjId>, OutOfMemory>
        ensures { IfOk result (λ listed. listed ≡ (members self.now).of_group name.now) };
}
