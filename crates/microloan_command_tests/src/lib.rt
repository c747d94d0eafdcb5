//! What the program's words ask for, and what its commands print, collect and serve, over an institution in vectors.
//! They stand apart from the tests that need tables, so that the gate proves both side by side.
#![tactic(auto)]

mod clients;
#[cfg(test)]
mod tests;

pub use clients::{Client, Clients};
