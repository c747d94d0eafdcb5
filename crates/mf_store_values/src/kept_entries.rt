//! The entries whose rows these are. An entry's columns are read in one place, by a running store as by an opening.

ghost use Rattle.std.specs.Prelude.{◌≡◌, ℕ, Some, List, map, IfSome, IfOk, IfErr};
ghost use Rattle.std.specs.List.{AllByRecursion};
ghost use Rattle.mf_base.specs.declared.fault.Fault.TheVariants.{F20};
ghost use Rattle.mf_office.specs.Texts.{IsCaller};
ghost use Rattle.mf_account.specs.declared.entry.Entry.{Entry};
ghost use Rattle.mf_store_values.specs.Decoded.{entry_of_columns, entry_with, entry_columns_of};
ghost use Rattle.mf_store_values.specs.Ledgers.{IsReadable};
ghost use Rattle.mf_store_values.specs.Flat.{entry_in};

use crate::numbers::{amount_from, flag_from};
use mf_account::{Entry, Kind, Receipt};
use mf_alloc::Portion;
use mf_base::{Choice, Day, Fault};
use mf_office::Caller;
use mf_store_schema::EntryRow;
use std::alloc::Global;

/// What the numbers and the texts of an entry's row stand for, but for its receipt, which is a text in both.
#[derive(Clone, Copy)]
pub struct EntryColumns {
    pub kind: Kind,
    pub portion: Portion,
    pub reversed: bool,
    /// Cents.
    pub amount: u64,
    pub day: Day,
    pub staff: Caller,
}

/// What the numbers and the texts of a row stand for, or None where they are those of no entry.
pub fn entry_columns(row: &EntryRow) -> Option<EntryColumns>
    ensures some { IfSome result (λ c. IsReadable (entry_of_columns row.now c)
        × (entry_in row.now.office row.now.loan (entry_of_columns row.now c) ≡ row.now)) }
    ensures every { (office loan : ℕ) (e : Entry) → IsReadable e → entry_in office loan e ≡ row.now
        → result ≡ Some (entry_columns_of e) }
    ensures only { IfSome result (λ c. (office loan : ℕ) (e : Entry) → IsCaller e.staff
        → entry_in office loan e ≡ row.now → c ≡ entry_columns_of e) }
{
    Some(EntryColumns {
        kind: Kind::from_number(row.kind)?,
        portion: Portion::from_number(row.portion)?,
        reversed: flag_from(row.reversed)?,
        amount: amount_from(row.amount)?,
        day: Day::parse(row.day.as_str().as_bytes())?,
        staff: Caller::parse(row.staff.as_str().as_bytes())?,
    })
}

/// The receipt of a row, if it has one.
fn receipt_of(alloc: Global, row: &EntryRow) -> Result<Option<Receipt>, Fault>
    ensures receipt { IfOk result (λ receipt. receipt ≡ row.now.receipt) }
    ensures gives_up { IfErr result (λ fault. fault ≡ F20) }
{
    match &row.receipt {
        None => Ok(None),
        Some(text) => {
            let text = String::from_str(alloc, text.as_str())?;
            Ok(Some(Receipt::new(text)))
        }
    }
}

impl EntryColumns {
    /// The entry with these columns, of this number, instalment and receipt.
    pub fn entry(self, seq: u32, instalment: u32, receipt: Option<Receipt>) -> Entry
        ensures { result ≡ entry_with seq instalment receipt self }
    {
        Entry {
            seq,
            kind: self.kind,
            day: self.day,
            amount: self.amount,
            instalment,
            portion: self.portion,
            receipt,
            staff: self.staff,
            reversed: self.reversed,
        }
    }
}

/// The entry of a row, or None where it is that of none.
fn entry_of(alloc: Global, row: &EntryRow) -> Result<Option<Entry>, Fault>
    ensures entry { IfOk result (λ found. (office loan : ℕ) (e : Entry) → IsReadable e →
        entry_in office loan e ≡ row.now → found ≡ Some e) }
    ensures gives_up { IfErr result (λ fault. fault ≡ F20) }
{
    let Some(columns) = entry_columns(row) else {
        return Ok(None);
    };
    let receipt = receipt_of(alloc, row)?;
    Ok(Some(columns.entry(row.seq, row.instalment, receipt)))
}

/// The entries of the rows, in order, up to the first row that is of none.
pub(crate) fn entries_of(alloc: Global, rows: &[EntryRow]) -> Result<Vec<Entry>, Fault>
    ensures entries { IfOk result (λ list. (office loan : ℕ) (es : List Entry) → AllByRecursion IsReadable es →
        map (entry_in office loan) es ≡ rows.now → list.items ≡ es) }
    ensures gives_up { IfErr result (λ fault. fault ≡ F20) }
{
    let mut entries = Vec::new(alloc);
    for row in rows {
        let Some(entry) = entry_of(alloc, row)? else {
            return Ok(entries);
        };
        entries.push(entry)?;
    }
    Ok(entries)
}
