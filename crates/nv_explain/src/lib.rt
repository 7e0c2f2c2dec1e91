//! Why a line of a script is refused, in words: a sentence for each code, the place in the line, what is wanted there, and hints for
//! slips that people make. It is told of the very reply; what it writes is tested, and not proved.
#![tactic(auto)]

mod case;
mod explain;
mod fields;
mod marks;
mod near;
mod part;
mod pasted;
mod place;
mod sentences;
mod slips;
mod table;
mod told;
mod usage;
mod wanted;
mod wrong;

pub use explain::{Source, put_explanation};
pub use table::put_tables;
