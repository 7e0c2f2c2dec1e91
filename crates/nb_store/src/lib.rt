//! The network as tables keep it, each record found by its number, by its name, and by what it belongs to, and changes of the tables,
//! which are undone without memory.
#![tactic(auto)]

mod belongs;
mod differing;
mod env;
mod laws;
mod leans;
mod likes;
mod listings;
mod named;
mod numbers;
mod peers;
mod readers;
mod records;
mod step;
mod stores;
mod undo;
mod work;

pub use laws::undoing_leaves_the_rest;
pub use likes::is_same_way;
pub use numbers::{add_number, is_among};
pub use records::Records;
pub use step::{Place, Touch};
pub use undo::Undo;
pub use work::Work;
