//! Tests of request lines, HTTP messages and collection sheets, over an institution in vectors. They stand apart so
//! that a change of one proves no part of the wire again.
#![tactic(auto)]

#[cfg(test)]
mod tests;
