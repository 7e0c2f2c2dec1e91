//! Tests of the public calls of the server's crates: what their clauses do not say.
#![tactic(auto)]

#[cfg(test)]
mod fixture;
#[cfg(test)]
mod lines;
#[cfg(test)]
mod networks;
#[cfg(test)]
mod serve;
#[cfg(test)]
mod stages;
