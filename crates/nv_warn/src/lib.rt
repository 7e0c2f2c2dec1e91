//! Warnings of what a script asks for that does nothing as it stands: names that nothing has, ports that lead to no router, ACLs that no
//! packet comes to. Each is told once, with the line that asks for it. They refuse nothing; what is written is tested, and not proved.
#![tactic(auto)]

mod acls;
mod lines;
mod names;
mod ports;
mod told;
mod warner;
mod words;

pub use lines::Line;
pub use warner::Warner;
