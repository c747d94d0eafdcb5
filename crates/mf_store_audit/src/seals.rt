//! Write-offs and refunds that stand, and are not the last of their loan's standing entries.

ghost use Rattle.std.specs.Prelude.{◌≡◌, ◌≢◌, ◌==◌, ◌||◌, ◌↔◌, ℕ, true, false, IsTrue};
ghost use Rattle.std.specs.List.{Contains};
ghost use Rattle.mf_account.specs.Kinds.{is_seal};
ghost use Rattle.mf_account.specs.Standing.{is_before};
ghost use Rattle.mf_account.specs.declared.entry.Entry.{Entry};
ghost use Rattle.mf_store_values.specs.Flat.{entry_in};
ghost use Rattle.mf_store_values.specs.Ledgers.{IsReadable};
ghost use Rattle.mf_store_schema.specs.Rows.{by_entry};
ghost use Rattle.mf_store_schema.specs.declared.entries.EntryRow.{EntryRow};
ghost use Rattle.mf_store_sound.specs.Held.{Rises};
ghost use Rattle.mf_store_audit.specs.Entries.{IsNotLast};

use mf_store_schema::EntryRow;
use mf_store_sound::{is_past, is_readable, is_reversed, is_seal};

/// Whether two rows are of entries of one loan.
fn is_same_loan(row: &EntryRow, other: &EntryRow) -> bool
    ensures { IsTrue result ↔ ((row.now.office ≡ other.now.office) × (row.now.loan ≡ other.now.loan)) }
{
    row.office == other.office && row.loan == other.loan
}

/// Whether a row is of a standing entry of the same loan that does not come before the entry of another row.
fn outlasts(row: &EntryRow, seal: &EntryRow) -> bool
    ensures some { IsTrue result → (e : Entry) → IsReadable e → entry_in seal.now.office seal.now.loan e ≡ seal.now →
        (f : Entry) × IsReadable f × (entry_in seal.now.office seal.now.loan f ≡ row.now) × (f.seq ≢ e.seq)
        × (f.reversed ≡ false) × (is_before f e ≡ false) }
    ensures every { (e f : Entry) → IsReadable e → entry_in seal.now.office seal.now.loan e ≡ seal.now → IsReadable f →
        entry_in seal.now.office seal.now.loan f ≡ row.now → f.seq ≢ e.seq → f.reversed ≡ false →
        is_before f e ≡ false → IsTrue result }
{
    if !is_same_loan(row, seal) {
        return false;
    }
    if !is_readable(row) {
        return false;
    }
    !is_past(row, seal)
}

/// Rows of a table's, among them all those of the loan of one of them where the table is in order; all rows where its
/// ends are out of order.
fn around<'a>(rows: &'a [EntryRow], row: &EntryRow) -> &'a [EntryRow]
    ensures some { (other : EntryRow) → Contains result.now other → Contains rows.now other }
    ensures every { Rises by_entry rows.now → (other : EntryRow) → Contains rows.now other
        → other.office ≡ row.now.office → other.loan ≡ row.now.loan → Contains result.now other }
{
    let loan = (row.office, row.loan);
    let first = rows.partition_point(|other| (other.office, other.loan) < loan);
    let last = rows.partition_point(|other| (other.office, other.loan) <= loan);
    if last < first {
        return rows;
    }
    &rows[first..last]
}

/// Whether a row is of a write-off or a refund that stands.
fn is_standing_seal(row: &EntryRow) -> bool
    ensures { (x m : ℕ) (e : Entry) → entry_in x m e ≡ row.now →
        IsTrue result ↔ ((is_seal e.kind ≡ true) × (e.reversed ≡ false)) }
{
    if is_reversed(row) {
        return false;
    }
    is_seal(row)
}

/// Whether a row is of a write-off or a refund that stands, and another standing entry of its loan does not come before
/// it.
pub(crate) fn is_not_last(rows: &[EntryRow], row: &EntryRow) -> bool
    ensures some { IsTrue result → IsNotLast rows.now row.now }
    ensures every { Rises by_entry rows.now → IsNotLast rows.now row.now → IsTrue result }
{
    if !is_standing_seal(row) {
        return false;
    }
    if !is_readable(row) {
        return false;
    }
    for other in around(rows, row) {
        if outlasts(other, row) {
            return true;
        }
    }
    false
}
