//! Tests of the public calls of the base crates: what their clauses do not say.
#![tactic(auto)]

#[cfg(test)]
mod base;
#[cfg(test)]
mod connections;
#[cfg(test)]
mod io;
#[cfg(test)]
mod maps;
#[cfg(test)]
mod neighbours;
#[cfg(test)]
mod packets;
mod ports;
#[cfg(test)]
mod tables;
