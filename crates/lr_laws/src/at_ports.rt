//! What comes in by a port, and what goes out by one.
ghost use Rattle.lr_laws.specs.Steps.{Admits, Delivers};

/// An enabled port admits what one sender sends to the port's MAC, or to many, and the port's MAC goes to `reg6`; all else is dropped.
pub fn lr_in_admission()
    ensures { Admits }
{}

/// An enabled port delivers what goes out by it, and a disabled one drops it.
pub fn lr_out_delivery()
    ensures { Delivers }
{}
