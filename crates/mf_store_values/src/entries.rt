//! What a loan's rows of entries stand for.

ghost use Rattle.std.specs.Prelude.{◌≡◌, ℕ, List, map, IfOk, IfErr};
ghost use Rattle.std.specs.List.{AllByRecursion};
ghost use Rattle.mf_base.specs.declared.fault.Fault.TheVariants.{F20};
ghost use Rattle.mf_office.specs.Texts.{IsCaller};
ghost use Rattle.mf_account.specs.declared.entry.Entry.{Entry};
ghost use Rattle.mf_store_schema.specs.Rows.{entry_row};
ghost use Rattle.mf_store_values.specs.Flat.{entry_in};

use crate::kept_entries::entry_columns;
use crate::values::or_give_up;
use mf_account::{Entry, Receipt};
use mf_base::Fault;
use mf_store_schema::{EntryRow, Text, read_row};
use sqlite::Row;
use std::alloc::Global;

/// The receipt that a text is, where there is one.
fn receipt_from(text: Option<Text>) -> Option<Receipt>
    ensures { result ≡ text }
{
    match text {
        None => None,
        Some(text) => Some(Receipt::new(text.into_string())),
    }
}

/// The entry of a row.
fn entry_from(row: EntryRow) -> Result<Entry, Fault>
    ensures entry { IfOk result (λ entry. (office loan : ℕ) (e : Entry) → IsCaller e.staff
        → row ≡ entry_in office loan e → entry ≡ e) }
    ensures gives_up { IfErr result (λ fault. fault ≡ F20) }
{
    let columns = or_give_up(entry_columns(&row))?;
    Ok(columns.entry(row.seq, row.instalment, receipt_from(row.receipt)))
}

/// The entry of a row as the tables give it.
fn entry_in_row(row: &Row) -> Result<Entry, Fault>
    ensures entry { IfOk result (λ entry. (office loan : ℕ) (e : Entry) → IsCaller e.staff
        → row.now ≡ entry_row (entry_in office loan e) → entry ≡ e) }
    ensures gives_up { IfErr result (λ fault. fault ≡ F20) }
{
    let found = read_row::<EntryRow>(row)?;
    entry_from(found)
}

/// The entries of the rows, in order.
pub fn entries_from(alloc: Global, rows: &[Row]) -> Result<Vec<Entry>, Fault>
    ensures entries { IfOk result (λ list. (office loan : ℕ) (es : List Entry)
        → AllByRecursion (λ e. IsCaller e.staff) es → rows.now ≡ map (λ e. entry_row (entry_in office loan e)) es
        → list.items ≡ es) }
    ensures gives_up { IfErr result (λ fault. fault ≡ F20) }
{
    let mut entries = Vec::new(alloc);
    for row in rows {
        entries.push(entry_in_row(row)?)?;
    }
    Ok(entries)
}
