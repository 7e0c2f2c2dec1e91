//! ACLs that are there.
ghost use Rattle.std.specs.Prelude.{◌≡◌};
ghost use Rattle.expr_check.specs.Printed.{IsPrintable};
ghost use Rattle.nb_read.specs.Readings.{role_of};
ghost use Rattle.nb_model.specs.Sound.{IsSound};
ghost use Rattle.nb_model.specs.Tests.{acl_number};

use expr_core::Typed;
use nb_records::Way;
use nb_store::Records;
use nv_base::ObjId;

/// The number of the ACL that a new one would repeat.
pub fn acl_number(
    records: &Records,
    owner: Option<ObjId>,
    way: Way,
    priority: u16,
    matching: &Typed,
) -> Option<ObjId>
    requires sound { IsSound records.now }
    requires printed { IsPrintable (role_of way) matching.now }
    ensures { result ≡ acl_number records.now owner way (priority, matching.now) }
{
    records.acl_like(owner?, way, priority, matching)
}
