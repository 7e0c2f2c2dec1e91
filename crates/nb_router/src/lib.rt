//! What is said of routers, by their rows and by what the network means alike.
#![tactic(auto)]
