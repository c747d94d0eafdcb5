//! The books of an institution, from its journal: its lines are played from their founding, and the transactions that
//! are dated in a span of days are written, or what moved in it by portion.
#![tactic(auto)]

mod answer;
mod bytes;
mod copied;
mod ends;
pub mod laws;
mod movement;
mod pages;
mod writing;

pub use answer::Books;
pub use bytes::{Unwritten, write_books_from_copy};
pub use copied::write_books_from;
pub use movement::write_movement;
pub use writing::write_books;
