//! Whether a write-off or a refund that stands is the last of a loan's standing entries, by their rows.

ghost use Rattle.std.specs.Prelude.{◌≡◌, ◌==◌, ◌||◌, not, ℕ, List, map};
ghost use Rattle.std.specs.List.{AllByRecursion};
ghost use Rattle.mf_account.specs.Kinds.{is_seal};
ghost use Rattle.mf_account.specs.Lawful.{is_last_of, are_seals_last};
ghost use Rattle.mf_account.specs.Standing.{is_before};
ghost use Rattle.mf_account.specs.declared.entry.Entry.{Entry};
ghost use Rattle.mf_store_values.specs.Ledgers.{IsReadable};
ghost use Rattle.mf_store_values.specs.Flat.{entry_in};

use mf_account::Kind;
use mf_base::{Choice, Day};
use mf_store_schema::EntryRow;

/// Whether the entry of a row comes before that of another: by day, then by number.
fn is_before(row: &EntryRow, last: &EntryRow) -> bool
    ensures { (x m : ℕ) (f e : Entry) → IsReadable f → entry_in x m f ≡ row.now → IsReadable e → entry_in x m e
        ≡ last.now →
        result ≡ is_before f e }
{
    let Some(day) = Day::parse(row.day.as_str().as_bytes()) else {
        return false;
    };
    let Some(other) = Day::parse(last.day.as_str().as_bytes()) else {
        return false;
    };
    day < other || (day == other && row.seq < last.seq)
}

/// Whether a row is of a write-off or a refund. Of a row that is none of an entry it says nothing.
pub fn is_seal(row: &EntryRow) -> bool
    ensures { (x m : ℕ) (e : Entry) → entry_in x m e ≡ row.now → result ≡ is_seal e.kind }
{
    match Kind::from_number(row.kind) {
        Some(kind) => kind.is_seal(),
        None => false,
    }
}

/// Whether a row is of an entry that is reversed. Of a row that is none of an entry it says nothing.
pub fn is_reversed(row: &EntryRow) -> bool
    ensures { (x m : ℕ) (e : Entry) → entry_in x m e ≡ row.now → result ≡ e.reversed }
{
    row.reversed == 1
}

/// Whether the entry of a row is reversed, or the same as another of its loan, or comes before it. Of rows that can't
/// be read as entries of one loan it says nothing.
pub fn is_past(row: &EntryRow, last: &EntryRow) -> bool
    ensures { (x m : ℕ) (f e : Entry) → IsReadable f → entry_in x m f ≡ row.now → IsReadable e → entry_in x m e
        ≡ last.now →
        result ≡ (f.reversed || ((f.seq == e.seq) || is_before f e)) }
{
    is_reversed(row) || row.seq == last.seq || is_before(row, last)
}

/// Whether every other standing entry comes before that of a row.
fn is_last(rows: &[EntryRow], last: &EntryRow) -> bool
    ensures { (x m : ℕ) (entries : List Entry) (e : Entry) → AllByRecursion IsReadable entries →
        map (entry_in x m) entries ≡ rows.now → IsReadable e → entry_in x m e ≡ last.now →
        result ≡ is_last_of entries e }
{
    for row in rows {
        if !is_past(row, last) {
            return false;
        }
    }
    true
}

/// Whether the entry of a row is the last, where it is a write-off or a refund that stands.
fn is_in_order(rows: &[EntryRow], row: &EntryRow) -> bool
    ensures { (x m : ℕ) (entries : List Entry) (e : Entry) → AllByRecursion IsReadable entries →
        map (entry_in x m) entries ≡ rows.now → IsReadable e → entry_in x m e ≡ row.now →
        result ≡ (e.reversed || (not (is_seal e.kind) || is_last_of entries e)) }
{
    is_reversed(row) || !is_seal(row) || is_last(rows, row)
}

/// Whether a write-off or a refund that stands is the last of the standing entries. At most two rows are held against
/// all others, since no two can both be the last.
pub(crate) fn are_seals_last(rows: &[EntryRow]) -> bool
    ensures { (x m : ℕ) (entries : List Entry) → AllByRecursion IsReadable entries → map (entry_in x m) entries
        ≡ rows.now →
        result ≡ are_seals_last entries }
{
    for row in rows {
        if !is_in_order(rows, row) {
            return false;
        }
    }
    true
}
