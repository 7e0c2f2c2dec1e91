//! Access control lists.
use expr_core::Typed;
use nv_base::ObjId;

/// The packets that an ACL looks at (ovn-nb(5), 'ACL TABLE', direction).
#[derive(Clone, Copy, PartialEq, Eq, PartialOrd, Ord)]
pub enum Way {
    /// `from-lport`: those that come from a port.
    From,
    /// `to-lport`: those that go to a port.
    To,
}

/// What an ACL does to the packets that it takes (ovn-nb(5), 'ACL TABLE', action).
#[derive(Clone, Copy, PartialEq, Eq)]
pub enum Verdict {
    /// `allow`
    Allow,
    /// `allow-related`
    AllowRelated,
    /// `allow-stateless`
    AllowStateless,
    /// `drop`
    Drop,
    /// `reject`
    Reject,
}

/// An ACL (ovn-nb(5), 'ACL TABLE').
#[derive(Drop, PartialEq, Eq)]
pub struct Acl {
    pub id: ObjId,
    /// The number of its switch or of its port group.
    pub owner: ObjId,
    pub way: Way,
    /// At most 32,767. Among the ACLs that take a packet, one of the highest priority decides.
    pub priority: u16,
    /// The packets that it takes.
    pub matching: Typed,
    pub verdict: Verdict,
}
