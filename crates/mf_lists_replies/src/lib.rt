//! What an answer of the lists is replied by: its body in JSON, and its line.
#![tactic(auto)]

mod changes;
mod clients;
mod due;
pub mod laws;
mod lines;
mod previews;
mod replies;
mod stages;
mod takings;
mod texts;

pub use replies::{list_line, list_text};
