//! What the loans of an institution come to by portion, office and product, and its text as a table.
#![tactic(auto)]

pub mod laws;
mod lines;
mod table;

pub use lines::{Column, Heading, PortionLine, portion_lines};
pub use table::table_text;
