//! What a run of requests makes of the entries of one loan.
#![tactic(auto)]

pub mod laws;
