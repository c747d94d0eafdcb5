//! What is told of an account: its instalments and its entries as they stand, by number.
#![tactic(auto)]

mod entries;
mod instalments;
pub mod laws;
mod lines;
mod listing;

pub use entries::entry_lines;
pub use instalments::{instalment_lines, instalment_lines_of_rows};
pub use lines::{EntryLine, EntryList, InstalmentLine, InstalmentList};
pub use listing::Listing;
