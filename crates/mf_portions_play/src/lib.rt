//! What an institution comes to by portion, read from any store, now or at the end of a business day of its journal.
#![tactic(auto)]

mod ends;
pub mod laws;
mod reading;

pub use ends::play_lines_before;
pub use reading::{read_portions, write_portions};
