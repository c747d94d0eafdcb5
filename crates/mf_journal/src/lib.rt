//! The journal of an institution: what it is, the text of a line, and the chain that ties a line to those before it.
#![tactic(auto)]

pub mod chain;
pub mod following;
pub mod laws;
pub mod repayments;

pub use chain::{JournalRow, link};
pub use following::{Break, Head, KeptRow};
pub use repayments::{repayment_body, repayment_path};
