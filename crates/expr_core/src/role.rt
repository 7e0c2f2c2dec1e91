/// Where a match is used.
#[derive(Clone, Copy)]
pub enum Role {
    /// In a row of flows.
    Row,
    /// In an ACL for packets from ports.
    AclFrom,
    /// In an ACL for packets to ports.
    AclTo,
    /// In a microflow.
    Micro,
}
