//! The journal's table: the lines of an institution's journal as rows, and the calls that make the table, put lines at
//! its end, read them back and check that each follows on those before it, over any store that `sqlite` can change.
#![tactic(auto)]

mod adding;
mod checking;
mod found;
mod index;
mod journal;
pub mod laws;
mod lines;
mod noting;
mod numbers;
mod reading;
mod rows;

pub use adding::{add_line, beginning_row, make_journal, put_line};
pub use checking::{Flaw, Found, check_journal};
pub use found::read_journal;
pub use index::{IndexEntry, Sought, index_entry, next_sought, sought_together};
pub use journal::Journal;
pub use lines::{lines_told, number_after};
pub use noting::NotedWrite;
pub use numbers::has_room;
pub use reading::{Standing, first_rows_after, read_head, rows_after};
pub use rows::kept_row;
