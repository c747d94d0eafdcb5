//! An archive, as it was read.

use mf_journal::Head;
use sqlite::Row;

/// Lines of a journal that were moved to an archive.
#[derive(Drop)]
pub struct Archive {
    /// Where the archive begins: the number before its first line, the day, and the chain.
    pub begins: Head,
    /// Where the journal stood after its last line.
    pub ends: Head,
    /// The rows of its table: that of where it begins, and those of its lines.
    pub rows: Vec<Row>,
}
