//! Lines of a journal that move from an institution's file to an archive, from what is refused to two files that are
//! closed.
#![tactic(auto)]

mod closing;
mod finding;
mod making;
mod moving;
mod over;

pub use finding::{Unmoved, first_lines};
pub use moving::{Moved, archive_and_close};
pub use over::{archive_over, archive_store};
