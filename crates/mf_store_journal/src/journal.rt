//! A journal that a table keeps.

use mf_journal::Head;

/// A journal: where it begins, and where it stands.
#[derive(Clone, Copy)]
pub struct Journal {
    pub begins: Head,
    pub head: Head,
}
