//! Lines of a journal, played over any store, and their transactions written: the books line by line.
#![tactic(auto)]

mod form;
mod held;
pub mod laws;
mod line;
mod lines;
mod loans;
mod opening;
mod passed;

pub use form::{BooksAsked, BooksForm};
pub use held::{HeldLoan, hold_office};
pub use lines::book_lines;
pub use opening::book_opening;
