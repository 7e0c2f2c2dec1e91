//! Why edits are refused: the tests of each edit, but that of the limits.
#![tactic(auto)]

mod test;
mod tests_acls;
mod tests_balancers;
mod tests_datapaths;
mod tests_ports;
mod tests_routes;
mod tests_sets;

pub use test::tested;
