//! Lines of a journal that were moved to an archive, read back and checked.
#![tactic(auto)]

mod archive;
mod checking;
mod joining;
mod reading;

pub use archive::Archive;
pub use checking::Unread;
pub use joining::{Gap, Joined, gap_before, join};
pub use reading::read_archive;
