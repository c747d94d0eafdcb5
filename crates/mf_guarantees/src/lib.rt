//! What the institution guarantees to those who lend it money, work in it and borrow from it, each as a law.
#![tactic(auto)]

pub mod laws;
