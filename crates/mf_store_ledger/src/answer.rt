//! What is said of the books of a journal.

use mf_play::Stop;

/// The books of a journal, or why it has none.
#[derive(Drop)]
pub enum Books {
    /// Their text.
    Written(Vec<u8>),
    /// The journal doesn't begin at the founding of an institution.
    NoFounding,
    /// The journal was not begun over the rows of the copy that was given.
    OtherCopy,
    /// The first line that doesn't play, by its number, and why.
    Stops { number: u64, why: Stop },
}
