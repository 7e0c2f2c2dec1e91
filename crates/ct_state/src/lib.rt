//! What packets leave for later ones, and the change of it by the packets of one walk, from which one may come back.
#![tactic(auto)]

mod state;
mod work;

pub use state::State;
pub use work::Work;
