//! The limits of the program, each once as a number.
#![tactic(auto)]

pub mod laws;
