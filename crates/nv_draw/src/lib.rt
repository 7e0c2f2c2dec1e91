//! A network as a picture, in the language DOT of Graphviz: its switches and routers, what leads where, and the way of a traced packet.
#![tactic(auto)]

mod boxes;
mod ends;
mod graph;
mod links;
mod notes;
mod text;
mod way;

pub use graph::{Traced, put_graph};
pub use way::Way;
