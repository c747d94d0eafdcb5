//! The row of a receipt, beside that of a new entry.

ghost use Rattle.std.specs.Prelude.{◌≡◌, IfOk, IfErr};
ghost use Rattle.mf_base.specs.declared.fault.Fault.TheVariants.{F20};
ghost use Rattle.mf_store_values.specs.ReceiptRows.{entry_added};

use mf_base::Fault;
use mf_store_schema::{EntryRow, ReceiptRow, StoreWrite, Text};
use std::alloc::Global;

/// A text that is the same.
pub fn same_text(alloc: Global, text: &str) -> Result<Text, Fault>
    ensures text { IfOk result (λ same. same ≡ text.now) }
    ensures gives_up { IfErr result (λ fault. fault ≡ F20) }
{
    Ok(Text::new(String::from_str(alloc, text)?))
}

/// The writes that add an entry: its row, and that of its receipt where it carries one.
pub fn writes_of(alloc: Global, entry: EntryRow) -> Result<Vec<StoreWrite>, Fault>
    ensures writes { IfOk result (λ writes. writes.items ≡ entry_added entry) }
    ensures gives_up { IfErr result (λ fault. fault ≡ F20) }
{
    let mut writes = Vec::new(alloc);
    let office = entry.office;
    let loan = entry.loan;
    let seq = entry.seq;
    let receipt = match &entry.receipt {
        None => None,
        Some(receipt) => Some(same_text(alloc, receipt.as_str())?),
    };
    writes.push(StoreWrite::AddEntry(entry))?;
    if let Some(receipt) = receipt {
        writes.push(StoreWrite::AddReceipt(ReceiptRow {
            office,
            receipt,
            loan,
            seq,
        }))?;
    }
    Ok(writes)
}
