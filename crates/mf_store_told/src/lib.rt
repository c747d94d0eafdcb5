//! Lines of a journal's table that tell requests: what opening asks of them beside that they follow on one another.
#![tactic(auto)]

mod pages;
mod reading;

pub use pages::{first_untold_line, narrow, number_at};
pub use reading::read_told_journal;
