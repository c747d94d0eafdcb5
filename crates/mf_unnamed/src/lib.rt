//! The names of clients and staff matter to no reply but those that show one.
#![tactic(auto)]

pub mod laws;
