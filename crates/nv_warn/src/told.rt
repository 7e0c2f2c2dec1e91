//! What was told already.
use nv_base::ObjId;

/// What is warned of.
#[derive(Clone, Copy, PartialEq, Eq)]
pub(crate) enum Matter {
    /// A match names what nothing has.
    Names,
    /// A switch or a group with ACLs has no port.
    NoPorts,
    /// A port has the address `router`, and no option.
    NoOption,
    /// A port has the option, and not the type.
    NoType,
    /// The option of a port names no port of a router.
    NoPeer,
    /// A port that leads to a router has no address.
    NoAddress,
}

/// A warning that was told: of which object, and of what.
#[derive(Clone, Copy)]
pub(crate) struct Told {
    pub object: ObjId,
    pub matter: Matter,
}

/// Whether the warning is among those that were told.
pub(crate) fn is_told(told: &[Told], object: ObjId, matter: Matter) -> bool {
    told.iter().any(|other| other.object.0 == object.0 && other.matter == matter)
}
