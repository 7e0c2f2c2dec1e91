//! The sound network, and its edits: each is tested, done where no test refuses it, and undone where the network would be over a limit.
#![tactic(auto)]

mod apply;
mod changes;
mod gone;
mod line_undo;
mod tables;

pub use changes::{Changes, GoneObjects};
pub use line_undo::LineUndo;
pub use tables::Tables;
