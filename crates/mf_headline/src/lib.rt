//! What is promised of a run's bytes and of a loan's whole history at once.
#![tactic(auto)]

pub mod laws;
