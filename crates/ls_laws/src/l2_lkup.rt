//! The lookup of destinations.
ghost use Rattle.ls_laws.specs.Steps.{LooksUp, FindsNone};

/// What is for many leaves by the group of all ports, and what is for the MAC of an enabled port by that port, of several the one of
/// the lowest number.
pub fn ls_in_l2_lkup()
    ensures { LooksUp }
{}

/// What is for a MAC that no port has leaves by the group of the ports for unknown addresses, where there are any.
pub fn ls_in_l2_unknown()
    ensures { FindsNone }
{}
