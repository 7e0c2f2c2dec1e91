//! Tests of the public calls of frames and captures: what their clauses do not say.
#![tactic(auto)]

#[cfg(test)]
mod captures;
#[cfg(test)]
mod frames;
