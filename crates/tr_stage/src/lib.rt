//! What a row does with a packet of which it asks for no connection: its actions, and the blocks that answer another packet.
#![tactic(auto)]

mod act;
mod block;
mod cause;
mod kept;
mod outcome;
mod part;

pub use act::{Ending, change, end};
pub use net_meaning::{Answer, Cause};
pub use outcome::{Hit, Outcome};
pub use sb_model::Pipeline;
