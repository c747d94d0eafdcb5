//! What tests share: an institution in vectors in place of a store, streams of request lines with their replies, a
//! sheet with its results, and readers and writers that fail.
#![tactic(auto)]

mod devices;
mod double;
mod row;
pub mod streams;

pub use devices::{Narrow, Torn};
pub use double::Books;
