ghost use Rattle.std.specs.Prelude.{◌≡◌, []};
ghost use Rattle.nv_reply.specs.Session.{new_session};

use nv_reply::Session;
use std::alloc::Global;

/// What a run begins with (not from OVN).
#[derive(Drop)]
pub struct Opening {
    /// What its output begins with.
    pub text: Vec<u8>,
    /// The session before its first line.
    pub session: Session,
}

impl Opening {
    /// The network without objects, where a traced packet may take so many hops, and no text (not from OVN). It takes no memory.
    pub fn new(alloc: Global, hops: u8) -> Self
        ensures text { result.text.items ≡ [] }
        ensures session { result.session ≡ new_session hops }
    {
        Opening {
            text: Vec::new(alloc),
            session: Session::new(alloc, hops),
        }
    }
}
