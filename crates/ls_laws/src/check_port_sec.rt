//! Port security.
ghost use Rattle.ls_laws.specs.Steps.{ChecksIn, ChecksOut};

/// What comes in by a port goes on where the port lets it in, and is dropped where it does not.
pub fn ls_in_check_port_sec()
    ensures { ChecksIn }
{}

/// What goes out by a port is delivered where the port lets it out, and is dropped where it does not.
pub fn ls_out_check_port_sec()
    ensures { ChecksOut }
{}
