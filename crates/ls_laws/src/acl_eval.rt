//! ACLs, where a switch tracks no connections.
ghost use Rattle.ls_laws.specs.Steps.{DecidesIn, DecidesOut};

/// The ACLs for what comes from ports decide: of those that apply and hold, the one of the highest priority, and of equals the
/// one of the lowest number.
pub fn ls_in_acl_eval()
    ensures { DecidesIn }
{}

/// The ACLs for what goes to ports decide in the same way.
pub fn ls_out_acl_eval()
    ensures { DecidesOut }
{}
