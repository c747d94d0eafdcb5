//! What the list of conditions promises: rows that no sound institution has break a condition, each in a row that is
//! named.
#![tactic(auto)]

pub mod laws;
