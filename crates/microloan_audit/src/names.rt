//! Rows by their table and their key, as people know them.

ghost use Rattle.std.specs.Prelude.{◌≡◌, ℕ, List, codes, string_bytes, slice_get, option_map, IfOk, IsOkUnless};
ghost use Rattle.microloan_audit.specs.Played as spec;

use crate::line::{account_text, caller_text, entry_key, instalment_key, number_text, receipt_key};
use mf_base::Fault;
use mf_store_played::PlayedTable;
use mf_store_schema::{
    ChargeRow, ClientRow, EntryRow, InstalmentRow, LoanRow, MetaRow, OfficeRow, ProductRow,
    ReceiptRow, ShareRow, StaffRow,
};
use mf_store_sound::Tables;
use std::alloc::Global;

/// A row of a table, which has a name.
trait Named {
    ghost name: { Self → List ℕ };

    /// Its table, and its key as people know it. The error is F20, out of memory.
    fn name(&self, alloc: Global) -> Result<String, Fault>
        ensures text { IfOk result (λ text. string_bytes text ≡ name self.now) }
        ensures only { IsOkUnless result Fault.F20 };
}

/// A table, and the key of its row.
fn row_name(alloc: Global, table: &str, key: &str) -> Result<String, Fault>
    ensures text { IfOk result (λ text. string_bytes text ≡ spec.row_name table.now key.now) }
    ensures only { IsOkUnless result Fault.F20 }
{
    Ok(format!(in alloc; "{table} {key}")?)
}

impl Named for MetaRow {
    ghost name = { spec.meta_name };

    fn name(&self, alloc: Global) -> Result<String, Fault> {
        Ok(String::from_str(alloc, "meta")?)
    }
}

impl Named for OfficeRow {
    ghost name = { spec.office_name };

    fn name(&self, alloc: Global) -> Result<String, Fault> {
        let key = number_text(alloc, self.number)?;
        row_name(alloc, "offices", key.as_str())
    }
}

impl Named for StaffRow {
    ghost name = { spec.staff_name };

    fn name(&self, alloc: Global) -> Result<String, Fault> {
        let key = caller_text(alloc, self.office, self.number)?;
        row_name(alloc, "staff", key.as_str())
    }
}

impl Named for ClientRow {
    ghost name = { spec.client_name };

    fn name(&self, alloc: Global) -> Result<String, Fault> {
        let key = account_text(alloc, self.office, self.number)?;
        row_name(alloc, "clients", key.as_str())
    }
}

impl Named for ChargeRow {
    ghost name = { spec.charge_name };

    fn name(&self, alloc: Global) -> Result<String, Fault> {
        let key = number_text(alloc, self.number)?;
        row_name(alloc, "charges", key.as_str())
    }
}

impl Named for ProductRow {
    ghost name = { spec.product_name };

    fn name(&self, alloc: Global) -> Result<String, Fault> {
        let key = number_text(alloc, self.number)?;
        row_name(alloc, "products", key.as_str())
    }
}

impl Named for LoanRow {
    ghost name = { spec.loan_name };

    fn name(&self, alloc: Global) -> Result<String, Fault> {
        let key = account_text(alloc, self.office, self.number)?;
        row_name(alloc, "loans", key.as_str())
    }
}

impl Named for EntryRow {
    ghost name = { spec.entry_name };

    fn name(&self, alloc: Global) -> Result<String, Fault> {
        let key = entry_key(alloc, self.office, self.loan, self.seq)?;
        row_name(alloc, "entries", key.as_str())
    }
}

impl Named for ReceiptRow {
    ghost name = { spec.receipt_name };

    fn name(&self, alloc: Global) -> Result<String, Fault> {
        let key = receipt_key(alloc, self.office, self.receipt.as_str())?;
        row_name(alloc, "receipts", key.as_str())
    }
}

impl Named for InstalmentRow {
    ghost name = { spec.instalment_name };

    fn name(&self, alloc: Global) -> Result<String, Fault> {
        let key = instalment_key(alloc, self.office, self.loan, self.number)?;
        row_name(alloc, "instalments", key.as_str())
    }
}

impl Named for ShareRow {
    ghost name = { spec.share_name };

    fn name(&self, alloc: Global) -> Result<String, Fault> {
        let key = entry_key(alloc, self.office, self.loan, self.seq)?;
        row_name(alloc, "shares", key.as_str())
    }
}

/// The name of the row at a place, if there is one.
fn name_at<R: Named>(alloc: Global, rows: &[R], place: usize) -> Result<Option<String>, Fault>
    ensures text { IfOk result (λ name.
        option_map string_bytes name ≡ option_map R.name (slice_get rows.now place)) }
    ensures only { IsOkUnless result Fault.F20 }
{
    match rows.get(place) {
        Some(row) => {
            let name = row.name(alloc)?;
            Ok(Some(name))
        }
        None => Ok(None),
    }
}

/// The name of the row at a place of a table, if there is one. The error is F20, out of memory.
#[tactic(auto, unfolding(crate::specs::Played::name_in))]
pub(crate) fn name_in(
    alloc: Global,
    table: PlayedTable,
    tables: &Tables,
    place: usize,
) -> Result<Option<String>, Fault>
    ensures text { IfOk result (λ name. option_map string_bytes name ≡ spec.name_in table tables.now place) }
    ensures only { IsOkUnless result Fault.F20 }
{
    match table {
        PlayedTable::Meta => name_at(alloc, &tables.meta, place),
        PlayedTable::Offices => name_at(alloc, &tables.offices, place),
        PlayedTable::Staff => name_at(alloc, &tables.staff, place),
        PlayedTable::Clients => name_at(alloc, &tables.clients, place),
        PlayedTable::Charges => name_at(alloc, &tables.charges, place),
        PlayedTable::Products => name_at(alloc, &tables.products, place),
        PlayedTable::Loans => name_at(alloc, &tables.loans, place),
        PlayedTable::Entries => name_at(alloc, &tables.entries, place),
        PlayedTable::Receipts => name_at(alloc, &tables.receipts, place),
        PlayedTable::Instalments => name_at(alloc, &tables.instalments, place),
        PlayedTable::Shares => name_at(alloc, &tables.shares, place),
    }
}
