//! The line of a finding: its table, the row's key as people know it, and the condition that the row breaks.

ghost use Rattle.std.specs.Prelude.{◌≡◌, ◌++◌, string_bytes, slice_get, IfOk, IsOkUnless, codes, decimal};
ghost use Rattle.mf_office.specs.Written as written;
ghost use Rattle.microloan_audit.specs.Lines as spec;
ghost use Rattle.microloan_audit.specs.Quoted.{quoted};
ghost use Rattle.microloan_audit.specs.Words as words;

use crate::catalogue::{words_of_charge, words_of_meta, words_of_product};
use crate::entries::{NOT_REPLAYED, words_of_doubt, words_of_entry, words_of_receipt};
use crate::loans::words_of_loan;
use crate::offices::{words_of_client, words_of_office, words_of_staff};
use crate::quoted::quoted;
use mf_base::Fault;
use mf_store_audit::{
    ChargeFlaw, ClientFlaw, Doubt, EntryFlaw, Finding, LoanFlaw, OfficeFlaw, ProductFlaw,
    ReceiptFlaw, RowKey, StaffFlaw,
};
use mf_store_schema::EntryRow;
use mf_store_sound::Tables;
use std::alloc::Global;

/// The line of a finding among the rows of these tables, as `loans 0005-000002: its product lends at most 12 periods`.
/// The error is F20, out of memory.
#[tactic(auto, unfolding(crate::specs::Lines::finding_line))]
pub(crate) fn finding_line(
    alloc: Global,
    tables: &Tables,
    finding: Finding,
) -> Result<String, Fault>
    ensures text { IfOk result (λ text. string_bytes text ≡ spec.finding_line tables.now finding) }
    ensures only { IsOkUnless result Fault.F20 }
{
    match finding {
        Finding::MetaRows => Ok(format!(in alloc;
            "meta: {} rows, and not one",
            tables.meta.len()
        )?),
        Finding::Meta { flaw, .. } => Ok(format!(in alloc; "meta: {}", words_of_meta(flaw))?),
        Finding::Charge { place, flaw } => charge_line(alloc, tables, place, flaw),
        Finding::Product { place, flaw } => product_line(alloc, tables, place, flaw),
        Finding::NoHead => Ok(format!(in alloc; "offices 1: the head office is not there")?),
        Finding::Office { place, flaw } => office_line(alloc, tables, place, flaw),
        Finding::Staff { place, flaw } => staff_line(alloc, tables, place, flaw),
        Finding::Client { place, flaw } => client_line(alloc, tables, place, flaw),
        Finding::Loan { place, flaw } => loan_line(alloc, tables, place, flaw),
        Finding::Entry { place, flaw } => entry_line(alloc, tables, place, flaw),
        Finding::Receipt { place, flaw } => receipt_line(alloc, tables, place, flaw),
        Finding::Instalment { key } => instalment_line(alloc, key),
        Finding::Share { key } => share_line(alloc, key),
        Finding::Suspect { place, doubt } => suspect_line(alloc, tables, place, doubt),
        Finding::Unsound => Ok(format!(in alloc; "no sound institution has these rows")?),
    }
}

/// The line of a place at which a table has no row. No finding names one.
fn no_row(alloc: Global, table: &str, place: usize) -> Result<String, Fault>
    ensures text { IfOk result (λ text. string_bytes text
        ≡ table.now ++ (codes ": no row at " ++ decimal place)) }
    ensures only { IsOkUnless result Fault.F20 }
{
    Ok(format!(in alloc; "{table}: no row at {place}")?)
}

/// A table, the key of its row, and what is said of it.
fn say(alloc: Global, table: &str, key: &str, words: &str) -> Result<String, Fault>
    ensures text { IfOk result (λ text. string_bytes text ≡ spec.said_of table.now key.now words.now) }
    ensures only { IsOkUnless result Fault.F20 }
{
    Ok(format!(in alloc; "{table} {key}: {words}")?)
}

/// A number as a text.
pub(crate) fn number_text(alloc: Global, number: u32) -> Result<String, Fault>
    ensures text { IfOk result (λ text. string_bytes text ≡ decimal number) }
    ensures only { IsOkUnless result Fault.F20 }
{
    Ok(format!(in alloc; "{number}")?)
}

/// A client or a loan by its office and its number, whether or not there may be one.
pub(crate) fn account_text(alloc: Global, office: u32, number: u32) -> Result<String, Fault>
    ensures text { IfOk result (λ text. string_bytes text ≡ written.account_text office number) }
    ensures only { IsOkUnless result Fault.F20 }
{
    let text = format!(in alloc; "{office:04}-{number:06}")?;
    Ok(text)
}

/// A member of staff by their office and number.
pub(crate) fn caller_text(alloc: Global, office: u32, number: u32) -> Result<String, Fault>
    ensures text { IfOk result (λ text. string_bytes text ≡ written.caller_text office number) }
    ensures only { IsOkUnless result Fault.F20 }
{
    Ok(format!(in alloc; "{office}/{number}")?)
}

/// The key of a receipt.
pub(crate) fn receipt_key(alloc: Global, office: u32, receipt: &str) -> Result<String, Fault>
    ensures text { IfOk result (λ text. string_bytes text
        ≡ decimal office ++ (codes " " ++ quoted receipt.now)) }
    ensures only { IsOkUnless result Fault.F20 }
{
    let receipt = quoted(alloc, receipt)?;
    let receipt = receipt.as_str();
    Ok(format!(in alloc; "{office} {receipt}")?)
}

/// The key of an entry.
pub(crate) fn entry_key(alloc: Global, office: u32, loan: u32, seq: u32) -> Result<String, Fault>
    ensures text { IfOk result (λ text. string_bytes text ≡ spec.entry_key office loan seq) }
    ensures only { IsOkUnless result Fault.F20 }
{
    let loan = account_text(alloc, office, loan)?;
    let loan = loan.as_str();
    Ok(format!(in alloc; "{loan} entry {seq}")?)
}

/// The key of a row of an entry.
fn key_of_entry(alloc: Global, row: &EntryRow) -> Result<String, Fault>
    ensures text { IfOk result (λ text. string_bytes text
        ≡ spec.entry_key row.now.office row.now.loan row.now.seq) }
    ensures only { IsOkUnless result Fault.F20 }
{
    entry_key(alloc, row.office, row.loan, row.seq)
}

fn charge_line(
    alloc: Global,
    tables: &Tables,
    place: usize,
    flaw: ChargeFlaw,
) -> Result<String, Fault>
    ensures text { IfOk result (λ text. string_bytes text
        ≡ spec.charge_line (λ row. words.charge_words flaw) place (slice_get tables.now.charges place)) }
    ensures only { IsOkUnless result Fault.F20 }
{
    match tables.charges.get(place) {
        Some(row) => {
            let key = number_text(alloc, row.number)?;
            say(alloc, "charges", key.as_str(), words_of_charge(flaw))
        }
        None => no_row(alloc, "charges", place),
    }
}

fn product_line(
    alloc: Global,
    tables: &Tables,
    place: usize,
    flaw: ProductFlaw,
) -> Result<String, Fault>
    ensures text { IfOk result (λ text. string_bytes text
        ≡ spec.product_line (λ row. words.product_words flaw) place (slice_get tables.now.products place)) }
    ensures only { IsOkUnless result Fault.F20 }
{
    match tables.products.get(place) {
        Some(row) => {
            let key = number_text(alloc, row.number)?;
            say(alloc, "products", key.as_str(), words_of_product(flaw))
        }
        None => no_row(alloc, "products", place),
    }
}

fn office_line(
    alloc: Global,
    tables: &Tables,
    place: usize,
    flaw: OfficeFlaw,
) -> Result<String, Fault>
    ensures text { IfOk result (λ text. string_bytes text
        ≡ spec.office_line (words.office_words tables.now.offices flaw) place (slice_get tables.now.offices place)) }
    ensures only { IsOkUnless result Fault.F20 }
{
    match tables.offices.get(place) {
        Some(row) => {
            let key = number_text(alloc, row.number)?;
            let words = words_of_office(alloc, &tables.offices, row, flaw)?;
            say(alloc, "offices", key.as_str(), words.as_str())
        }
        None => no_row(alloc, "offices", place),
    }
}

fn staff_line(
    alloc: Global,
    tables: &Tables,
    place: usize,
    flaw: StaffFlaw,
) -> Result<String, Fault>
    ensures text { IfOk result (λ text. string_bytes text
        ≡ spec.staff_line (λ row. words.staff_words flaw) place (slice_get tables.now.staff place)) }
    ensures only { IsOkUnless result Fault.F20 }
{
    match tables.staff.get(place) {
        Some(row) => {
            let key = caller_text(alloc, row.office, row.number)?;
            say(alloc, "staff", key.as_str(), words_of_staff(flaw))
        }
        None => no_row(alloc, "staff", place),
    }
}

fn client_line(
    alloc: Global,
    tables: &Tables,
    place: usize,
    flaw: ClientFlaw,
) -> Result<String, Fault>
    ensures text { IfOk result (λ text. string_bytes text
        ≡ spec.client_line (λ row. words.client_words flaw) place (slice_get tables.now.clients place)) }
    ensures only { IsOkUnless result Fault.F20 }
{
    match tables.clients.get(place) {
        Some(row) => {
            let key = account_text(alloc, row.office, row.number)?;
            say(alloc, "clients", key.as_str(), words_of_client(flaw))
        }
        None => no_row(alloc, "clients", place),
    }
}

fn loan_line(alloc: Global, tables: &Tables, place: usize, flaw: LoanFlaw) -> Result<String, Fault>
    ensures text { IfOk result (λ text. string_bytes text
        ≡ spec.loan_line (words.loan_words tables.now.products flaw) place (slice_get tables.now.loans place)) }
    ensures only { IsOkUnless result Fault.F20 }
{
    match tables.loans.get(place) {
        Some(row) => {
            let key = account_text(alloc, row.office, row.number)?;
            let words = words_of_loan(alloc, &tables.products, row, flaw)?;
            say(alloc, "loans", key.as_str(), words.as_str())
        }
        None => no_row(alloc, "loans", place),
    }
}

fn entry_line(
    alloc: Global,
    tables: &Tables,
    place: usize,
    flaw: EntryFlaw,
) -> Result<String, Fault>
    ensures text { IfOk result (λ text. string_bytes text
        ≡ spec.entry_line (λ row. words.entry_words flaw) place (slice_get tables.now.entries place)) }
    ensures only { IsOkUnless result Fault.F20 }
{
    match tables.entries.get(place) {
        Some(row) => {
            let key = key_of_entry(alloc, row)?;
            say(alloc, "entries", key.as_str(), words_of_entry(flaw))
        }
        None => no_row(alloc, "entries", place),
    }
}

fn suspect_line(alloc: Global, tables: &Tables, place: usize, doubt: Doubt) -> Result<String, Fault>
    ensures text { IfOk result (λ text. string_bytes text
        ≡ spec.entry_line (words.doubt_words doubt) place (slice_get tables.now.entries place)) }
    ensures only { IsOkUnless result Fault.F20 }
{
    match tables.entries.get(place) {
        Some(row) => {
            let key = key_of_entry(alloc, row)?;
            let words = words_of_doubt(alloc, row, doubt)?;
            say(alloc, "entries", key.as_str(), words.as_str())
        }
        None => no_row(alloc, "entries", place),
    }
}

fn receipt_line(
    alloc: Global,
    tables: &Tables,
    place: usize,
    flaw: ReceiptFlaw,
) -> Result<String, Fault>
    ensures text { IfOk result (λ text. string_bytes text
        ≡ spec.receipt_line (λ row. words.receipt_words flaw) place (slice_get tables.now.receipts place)) }
    ensures only { IsOkUnless result Fault.F20 }
{
    match tables.receipts.get(place) {
        Some(row) => {
            let key = receipt_key(alloc, row.office, row.receipt.as_str())?;
            say(alloc, "receipts", key.as_str(), words_of_receipt(flaw))
        }
        None => no_row(alloc, "receipts", place),
    }
}

/// The key of an instalment.
pub(crate) fn instalment_key(
    alloc: Global,
    office: u32,
    loan: u32,
    number: u32,
) -> Result<String, Fault>
    ensures text { IfOk result (λ text. string_bytes text ≡ spec.instalment_key office loan number) }
    ensures only { IsOkUnless result Fault.F20 }
{
    let loan = account_text(alloc, office, loan)?;
    let loan = loan.as_str();
    Ok(format!(in alloc; "{loan} instalment {number}")?)
}

/// The line of an instalment, by its key.
fn instalment_line(alloc: Global, key: RowKey) -> Result<String, Fault>
    ensures text { IfOk result (λ text. string_bytes text ≡ spec.instalment_line key) }
    ensures only { IsOkUnless result Fault.F20 }
{
    let key = instalment_key(alloc, key.office, key.loan, key.number)?;
    say(alloc, "instalments", key.as_str(), NOT_REPLAYED)
}

/// The line of shares, by the key of their entry.
fn share_line(alloc: Global, key: RowKey) -> Result<String, Fault>
    ensures text { IfOk result (λ text. string_bytes text ≡ spec.share_line key) }
    ensures only { IsOkUnless result Fault.F20 }
{
    let key = entry_key(alloc, key.office, key.loan, key.number)?;
    say(alloc, "shares", key.as_str(), NOT_REPLAYED)
}
