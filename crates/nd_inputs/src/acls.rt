ghost use Rattle.std.specs.Prelude.{◌≡◌, IfOk};

use nb_records::Acl;
use net_rows::AclOnInput;
use nv_base::{Kept, OutOfMemory};
use std::alloc::Global;

/// The input of an ACL on a switch that tracks connections, or does not. Where memory runs out the answer is `OutOfMemory`.
pub fn acl_on_input(alloc: Global, acl: &Acl, tracks: bool) -> Result<AclOnInput, OutOfMemory>
    ensures { IfOk result (λ input. input ≡ record { way = acl.now.way; priority = acl.now.priority; matching = acl.now.matching; verdict = acl.now.verdict; tracks = tracks }) }
{
    Ok(AclOnInput {
        way: acl.way,
        priority: acl.priority,
        matching: acl.matching.copy(alloc)?,
        verdict: acl.verdict,
        tracks,
    })
}
