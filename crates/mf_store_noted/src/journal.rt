//! The place of the next line of a journal that tables keep.

use mf_base::Day;
use mf_store_journal::Journal;

/// Where the next line of a journal stands.
#[derive(Clone, Copy)]
pub struct Place {
    pub journal: Journal,
    /// The business day.
    pub day: Day,
}
