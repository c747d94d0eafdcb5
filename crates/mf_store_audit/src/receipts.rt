//! What is wrong with the rows of receipts, and whether an entry's receipt is among them.

ghost use Rattle.std.specs.Prelude.{◌≡◌, ◌↔◌, IsTrue};
ghost use Rattle.std.specs.Cmp.Lexicographic.{slice_cmp};
ghost use Rattle.std.specs.List.{Contains};
ghost use Rattle.std.specs.Ordering.{nat_cmp, ordering_then};
ghost use Rattle.mf_store_values.specs.ReceiptRows.{receipt_of};
ghost use Rattle.mf_store_schema.specs.declared.entries.EntryRow.{EntryRow};
ghost use Rattle.mf_store_audit.specs.Entries.{AreListed, BreaksReceipt};

use crate::finding::ReceiptFlaw;
use crate::keys::Keyed;
use crate::places::Row;
use crate::rows::find_row;
use mf_base::Fault;
use mf_store_schema::{EntryRow, ReceiptRow, Text};
use mf_store_sound::compare_receipts;
use std::cmp::Ordering;

/// Whether a row is that of this receipt of an entry.
fn is_row_of(entry: &EntryRow, receipt: &Text, row: &ReceiptRow) -> bool
    ensures { IsTrue result ↔
        (row.now ≡ record {
          office = entry.now.office;
          receipt = receipt.now;
          loan = entry.now.loan;
          seq = entry.now.seq;
        }) }
{
    row.office == entry.office
        && row.loan == entry.loan
        && row.seq == entry.seq
        && row.receipt.as_str() == receipt.as_str()
}

/// Whether a row is that of the receipt that an entry carries.
fn is_carried_by(entry: &EntryRow, row: &ReceiptRow) -> bool
    ensures { IsTrue result ↔ Contains (receipt_of entry.now entry.now.receipt) row.now }
{
    match &entry.receipt {
        Some(receipt) => is_row_of(entry, receipt, row),
        None => false,
    }
}

/// Whether some entry carries the receipt of a row.
fn is_carried(entries: &[EntryRow], row: &ReceiptRow) -> bool
    ensures { IsTrue result ↔
        ((e : EntryRow) × Contains entries.now e × Contains (receipt_of e e.receipt) row.now) }
{
    let key = (row.office, row.loan, row.seq);
    let searched = entries.binary_search_by_key(&key, |entry| entry.key());
    match find_row(entries, searched, |entry| is_carried_by(entry, row)) {
        Some(_) => true,
        None => false,
    }
}

/// Where a receipt stands to one of an office.
fn compare_with(row: &ReceiptRow, office: u32, receipt: &Text) -> Ordering
    ensures { result ≡ ordering_then (nat_cmp row.now.office office) (slice_cmp nat_cmp row.now.receipt receipt.now) }
{
    let by_bytes = row
        .receipt
        .as_str()
        .as_bytes()
        .cmp(receipt.as_str().as_bytes());
    row.office.cmp(&office).then(by_bytes)
}

/// Whether there is a row of this receipt of an entry.
fn is_there(receipts: &[ReceiptRow], entry: &EntryRow, receipt: &Text) -> bool
    ensures { IsTrue result ↔ Contains receipts.now
        (record { office = entry.now.office; receipt = receipt.now; loan = entry.now.loan; seq = entry.now.seq }) }
{
    let searched = receipts.binary_search_by(|row| compare_with(row, entry.office, receipt));
    match find_row(receipts, searched, |row| is_row_of(entry, receipt, row)) {
        Some(_) => true,
        None => false,
    }
}

/// Whether the receipt that an entry carries, if it carries one, is among the rows of receipts as this entry's.
pub(crate) fn is_listed(receipts: &[ReceiptRow], entry: &EntryRow) -> bool
    ensures { IsTrue result ↔ AreListed receipts.now (receipt_of entry.now entry.now.receipt) }
{
    match &entry.receipt {
        Some(receipt) => is_there(receipts, entry, receipt),
        None => true,
    }
}

/// A row of a receipt over these entries.
impl<'a> Row<&'a [EntryRow]> for ReceiptRow {
    type Flaw = ReceiptFlaw;

    ghost Breaks = { λ entries flaw before row. BreaksReceipt entries.now flaw before row };

    fn breaks(
        &self,
        entries: &'a [EntryRow],
        before: Option<&Self>,
        flaw: ReceiptFlaw,
    ) -> Result<bool, Fault> {
        match flaw {
            ReceiptFlaw::Order => Ok(match before {
                Some(before) => compare_receipts(before, self) != Ordering::Less,
                None => false,
            }),
            ReceiptFlaw::Entry => Ok(!is_carried(entries, self)),
        }
    }
}
