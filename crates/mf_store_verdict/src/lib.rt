//! A verdict on tables that were found: their audit, what the play of their journal says of them, and where
//! that stands.
#![tactic(auto)]

mod archives;
mod files;
mod folders;
mod heads;
mod playing;
mod verdict;

pub use archives::{archive_in_bytes, audit_over_archives, audit_over_archives_with};
pub use files::{Unaudited, audit_file, audit_file_with, audit_from_copy, audit_from_copy_with};
pub use folders::{Unopened, read_archives};
pub use heads::{head_of_file, head_of_file_with};
pub use verdict::{
    Verdict, audit_and_play, audit_and_play_from, audit_and_play_over, holds_up, passes,
};
