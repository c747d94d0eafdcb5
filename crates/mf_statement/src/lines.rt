//! The lines of a statement.

use crate::listing::Listing;
use mf_account::Entry;
use mf_alloc::Share;
use mf_base::Day;

/// An instalment as it stands, in whole cents. The portions are in the order of `Portion`.
#[derive(Clone, Copy)]
pub struct InstalmentLine {
    /// Its number, from 1.
    pub number: u32,
    pub due: Day,
    /// What is owed now by portion, fees and penalties entered later included.
    pub owed: [u64; 4],
    /// What is outstanding over all portions.
    pub outstanding: u64,
}

/// Instalments by number.
pub type InstalmentList = Listing<InstalmentLine>;

/// An entry as it is told.
pub struct EntryLine {
    pub entry: Entry,
    /// Whole cents: what was entered, or what the entry clears now.
    pub amount: u64,
    /// What it settles, in the strategy's order of cells.
    pub shares: Listing<Share>,
}

// By hand, since a derived drop is proved again in each function that may drop one.
impl Drop for EntryLine {
    fn drop(self) {
        let EntryLine {
            entry: _,
            amount: _,
            shares: _,
        } = self;
    }
}

/// Entries by number.
pub type EntryList = Listing<EntryLine>;
