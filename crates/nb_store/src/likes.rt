//! ACLs that say the same.
ghost use Rattle.std.specs.Prelude.{◌≡◌, ◌↔◌, IsTrue, option_map};
ghost use Rattle.std.specs.List.{AllByRecursion};
ghost use Rattle.std.specs.Str.{bytes_eq};
ghost use Rattle.expr_check.specs.Printed.{IsPrintable};
ghost use Rattle.expr_core.specs.Text.{typed_text};
ghost use Rattle.nb_read.specs.Readings.{role_of};
ghost use Rattle.nb_model.specs.Belongs.{same_way};
ghost use Rattle.nb_model.specs.Effect.{acl_like};
ghost use Rattle.nv_table.specs.Table.{NumbersRise};

use crate::records::Records;
use expr_core::Typed;
use expr_digest::digest_of;
use nb_records::Way;
use nv_base::{Kept, ObjId};

impl Records {
    /// The number of the ACL of this owner, direction, priority and printed match.
    pub fn acl_like(&self, owner: ObjId, way: Way, priority: u16, matching: &Typed) -> Option<ObjId>
        requires rise { NumbersRise (λ x. x.id) self.now.acls }
        requires printed { IsPrintable (role_of way) matching.now }
        requires readable { AllByRecursion (λ acl. IsPrintable (role_of acl.way) acl.matching) self.now.acls }
        ensures { result ≡ option_map (λ acl. acl.id) (acl_like self.now owner way (priority, matching.now)) }
    {
        let digest = digest_of(matching);
        let mut after = None;
        while let Some(acl) = self.acl_saying(owner, way, priority, digest, after) {
            if is_same(matching, &acl.matching) {
                return Some(acl.id);
            }
            after = Some(acl.id);
        }
        None
    }
}

/// Tells whether two directions are one (not from OVN).
pub fn is_same_way(a: Way, b: Way) -> bool
    ensures { result ≡ same_way a b }
{
    match (a, b) {
        (Way::From, Way::From) | (Way::To, Way::To) => true,
        (Way::From, Way::To) | (Way::To, Way::From) => false,
    }
}

// Whether two values are one.
fn is_same<T: Kept>(a: &T, b: &T) -> bool
    ensures { IsTrue result ↔ (a.now ≡ b.now) }
{
    *a == *b
}
