//! Lines of a journal that leave its file for an archive: a file of their own, which holds the journal's table alone.
#![tactic(auto)]

mod archiving;
mod filing;
pub mod laws;
mod paging;
mod removing;
mod taking;
mod writing;

pub use archiving::archive_lines;
pub use taking::take_out;
pub use writing::write_archive;
