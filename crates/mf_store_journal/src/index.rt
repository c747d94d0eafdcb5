//! The index of a journal, which lies in memory: of each of its first lines the day, and the office and the loan that
//! it names.

ghost use Rattle.std.specs.Prelude.{◌≡◌, ◌+◌, ◌≤◌, drop, IfSome};
ghost use Rattle.mf_journal.specs.Chain.{line_of_row};
ghost use Rattle.mf_store_journal.specs.Index.{index_entry, is_asked, is_sought, unsought};

use mf_journal::JournalRow;

/// What the index has of a line, by numbers; 0 stands for an office or a loan that it doesn't name.
#[derive(Clone, Copy)]
pub struct IndexEntry {
    /// The business day.
    pub day: u32,
    pub office: u32,
    pub loan: u32,
}

/// What is sought in the index: the lines that name an office and, where these are asked for, a loan of it, and that
/// were accepted on a business day.
#[derive(Clone, Copy)]
pub struct Sought {
    pub office: u32,
    pub loan: Option<u32>,
    pub day: Option<u32>,
}

/// The entry of the line with this row, or None where its numbers don't fit into 32 bits, as no line's in the table.
pub fn index_entry(row: JournalRow<'_>) -> Option<IndexEntry>
    ensures { IfSome result (λ entry. entry ≡ index_entry (line_of_row row.entry)) }
{
    Some(IndexEntry {
        day: u32::try_from(row.day).ok()?,
        office: u32::try_from(row.named_office).ok()?,
        loan: u32::try_from(row.named_loan).ok()?,
    })
}

/// Whether a number is the one that is asked for, if one is.
fn is_asked(asked: Option<u32>, number: u32) -> bool
    ensures { result ≡ is_asked asked number }
{
    match asked {
        None => true,
        Some(asked) => number == asked,
    }
}

impl Sought {
    /// Whether an entry's line is sought.
    pub fn is(&self, entry: IndexEntry) -> bool
        ensures { result ≡ is_sought self.now entry }
    {
        entry.office == self.office
            && is_asked(self.loan, entry.loan)
            && is_asked(self.day, entry.day)
    }
}

/// The place of the first entry from one on whose line is sought, or that behind the last.
pub fn next_sought(entries: &[IndexEntry], from: usize, sought: &Sought) -> usize
    ensures { result ≡ from + unsought sought.now (drop from entries.now) }
{
    let mut at = from;
    while at < entries.len() {
        if sought.is(entries[at]) {
            return at;
        }
        at += 1;
    }
    at
}

/// The most rows that are read at once.
const PAGE: u32 = 1_000;

/// How many rows are read from a place that is sought on: so many as are sought one after another, from 1 to 1,000. It
/// matters for the time alone.
pub fn sought_together(entries: &[IndexEntry], from: usize, sought: &Sought) -> u32
    ensures some { 1 ≤ result }
{
    let mut count = 1;
    for at in from..entries.len() {
        let next = at + 1;
        if count >= PAGE || next >= entries.len() || !sought.is(entries[next]) {
            return count;
        }
        count += 1;
    }
    count
}
