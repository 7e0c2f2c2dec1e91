//! What is said of the ACLs that are to be removed.
ghost use Rattle.std.specs.Prelude.{◌≡◌, ◌≤◌, ◌<◌, ◌^◌, Ok, IfOk, IfErr, length};
ghost use Rattle.nb_words.specs.Fault.{IsFaultOf};
ghost use Rattle.nb_edit.specs.Edits.{rule};

use crate::at::priority_at;
use crate::call::Call;
use expr_core::Typed;
use nb_read::acl_match;
use nb_records::Way;
use nb_words::LineFault;
use std::alloc::Global;

/// The priority and the match, where they are given.
pub(crate) fn rule(
    alloc: Global,
    call: &Call,
    way: Option<Way>,
) -> Result<Option<(u16, Typed)>, LineFault>
    ensures read { IfOk result (λ value. rule call.now way ≡ Ok value) }
    ensures refused { IfErr result (λ fault. IsFaultOf (rule call.now way) fault) }
{
    match way {
        Some(way) if call.is_there(3) => {
            let priority = priority_at(call, 2)?;
            let matching = acl_match(alloc, way, call.text(3))?;
            Ok(Some((priority, matching)))
        }
        _ => Ok(None),
    }
}
