//! Stores that are given back and taken over, and what a stop leaves of a file. They stand apart, so that a change of a
//! test proves nothing below again.
#![tactic(auto)]

#[cfg(test)]
mod tests;
