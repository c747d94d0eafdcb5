//! The row that an entry is kept by.

ghost use Rattle.std.specs.Prelude.{◌≡◌, IfOk, IfErr, ◌≤◌, ◌-◌, length, Some, OnOk};
ghost use Rattle.mf_base.specs.declared.fault.Fault.TheVariants.{F20};
ghost use Rattle.mf_store_values.specs.Flat.{entry_in};
ghost use Rattle.mf_account.specs.Standing.{entry_at};

use crate::loans::text_of_day;
use mf_account::{Entry, LoanAccount, Receipt};
use mf_base::{Choice, Fault};
use mf_store_schema::{EntryRow, Text};
use mf_store_values::to_signed;
use std::alloc::Global;

/// The text of a receipt, where there is one.
fn receipt_text(alloc: Global, receipt: &Option<Receipt>) -> Result<Option<Text>, Fault>
    ensures text { IfOk result (λ text. text ≡ receipt.now) }
    ensures gives_up { IfErr result (λ fault. fault ≡ F20) }
{
    match receipt {
        None => Ok(None),
        Some(receipt) => {
            let text = String::from_str(alloc, receipt.as_str())?;
            Ok(Some(Text::new(text)))
        }
    }
}

/// The row of an entry.
fn entry_row(alloc: Global, office: u32, loan: u32, entry: &Entry) -> Result<EntryRow, Fault>
    ensures row { IfOk result (λ row. row ≡ entry_in office loan entry.now) }
    ensures gives_up { IfErr result (λ fault. fault ≡ F20) }
{
    let day = text_of_day(alloc, entry.day)?;
    let amount = to_signed(entry.amount)?;
    let receipt = receipt_text(alloc, &entry.receipt)?;
    let staff = entry.staff.text(alloc)?;
    Ok(EntryRow {
        office,
        loan,
        seq: entry.seq,
        kind: entry.kind.number(),
        day,
        amount,
        instalment: entry.instalment,
        portion: entry.portion.number(),
        receipt,
        staff: Text::new(staff),
        reversed: entry.reversed as u32,
    })
}

/// The row of an entry of a loan's account, by its number; F20 where there is none.
pub fn row_of_entry(
    alloc: Global,
    office: u32,
    loan: u32,
    seq: u32,
    account: &LoanAccount,
) -> Result<EntryRow, Fault>
    ensures there { OnOk result ((1 ≤ seq) × (seq ≤ length account.now.loan.entries)) }
    ensures row { IfOk result (λ row. row ≡ entry_in office loan (entry_at account.now.loan.entries (seq - 1))) }
    ensures gives_up { IfErr result (λ fault. fault ≡ F20) }
{
    let entries = account.entries();
    if seq == 0 || entries.len() < seq as usize {
        return Err(Fault::F20);
    }
    let entry = &entries[seq as usize - 1];
    entry_row(alloc, office, loan, entry)
}
