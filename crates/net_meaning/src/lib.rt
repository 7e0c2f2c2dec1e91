//! What the network does with a packet, said of its objects alone.
#![tactic(auto)]

mod answer;
mod cause;
mod event;
mod kept;

pub use answer::Answer;
pub use cause::Cause;
pub use event::PlainEvent;
