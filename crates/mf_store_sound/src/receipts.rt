//! The rows of receipts: whether they are those that the rows of entries carry.

ghost use Rattle.std.specs.Prelude.{◌≡◌, ◌++◌, ◌↔◌, IsTrue, OnOk, IfOk, IfErr};
ghost use Rattle.mf_base.specs.declared.fault.Fault.TheVariants.{F20};
ghost use Rattle.mf_store_schema.specs.Rows.{by_receipt, is_receipt_before, AreReceiptsInOrder};
ghost use Rattle.mf_store_values.specs.ReceiptRows.{receipt_of, carried_by, AreReceiptsOf};

use mf_base::Fault;
use mf_store_schema::{EntryRow, ReceiptRow, Text};
use mf_store_values::are_same;
use std::alloc::Global;
use std::cmp::Ordering;

/// The order of receipts: by office, and then by their bytes.
pub fn compare_receipts(row: &ReceiptRow, other: &ReceiptRow) -> Ordering
    ensures { result ≡ by_receipt row.now other.now }
{
    let by_bytes = row
        .receipt
        .as_str()
        .as_bytes()
        .cmp(other.receipt.as_str().as_bytes());
    row.office.cmp(&other.office).then(by_bytes)
}

/// Whether a receipt comes before another.
fn is_before(row: &ReceiptRow, other: &ReceiptRow) -> bool
    ensures { result ≡ is_receipt_before row.now other.now }
{
    compare_receipts(row, other) == Ordering::Less
}

/// Whether each receipt comes before those that follow it, so that none stands twice in an office.
fn is_ascending(rows: &[ReceiptRow]) -> bool
    ensures { IsTrue result ↔ AreReceiptsInOrder rows.now }
{
    for place in 1..rows.len() {
        if !is_before(&rows[place - 1], &rows[place]) {
            return false;
        }
    }
    true
}

/// Adds the row of the receipt that an entry's row carries, if it carries one.
fn add_receipt(alloc: Global, rows: &mut Vec<ReceiptRow>, entry: &EntryRow) -> Result<(), Fault>
    ensures added { OnOk result (rows.new.items ≡ rows.old.items ++ receipt_of entry.now entry.now.receipt) }
    ensures gives_up { IfErr result (λ fault. fault ≡ F20) }
{
    let Some(receipt) = &entry.receipt else {
        return Ok(());
    };
    let text = Text::new(String::from_str(alloc, receipt.as_str())?);
    rows.push(ReceiptRow {
        office: entry.office,
        receipt: text,
        loan: entry.loan,
        seq: entry.seq,
    })?;
    Ok(())
}

/// The rows of the receipts that the rows of entries carry, in the order of the entries.
fn carried_receipts(alloc: Global, entries: &[EntryRow]) -> Result<Vec<ReceiptRow>, Fault>
    ensures rows { IfOk result (λ rows. rows.items ≡ carried_by entries.now) }
    ensures gives_up { IfErr result (λ fault. fault ≡ F20) }
{
    let mut rows = Vec::new(alloc);
    for entry in entries {
        add_receipt(alloc, &mut rows, entry)?;
    }
    Ok(rows)
}

/// Whether the rows are those of the receipts that the rows of entries carry, in the order of their key, and no office
/// has a receipt twice. The error is F20, out of memory.
pub(crate) fn are_receipts(
    alloc: Global,
    receipts: &[ReceiptRow],
    entries: &[EntryRow],
) -> Result<bool, Fault>
    ensures exact { IfOk result (λ yes. IsTrue yes ↔ AreReceiptsOf receipts.now entries.now) }
    ensures gives_up { IfErr result (λ fault. fault ≡ F20) }
{
    if !is_ascending(receipts) {
        return Ok(false);
    }
    let mut rows = carried_receipts(alloc, entries)?;
    rows.sort_unstable_by(|row, other| compare_receipts(row, other));
    let same = are_same(&rows, receipts);
    Ok(same)
}
