//! The postings of transactions as a sheet of comma-separated values, which spreadsheets read.

ghost use Rattle.std.specs.Prelude.{◌≡◌, ◌++◌, IfOk, OnOk, IsOkUnless, map, string_bytes};
ghost use Rattle.csv.specs.Writing.{row_text};
ghost use Rattle.mf_ledger.specs.Sheet as spec;

use crate::books::{Posting, Transaction};
use crate::names::{Names, Program};
use crate::occasion::Occasion;
use csv::{Error, Terminator, WriterBuilder};
use mf_base::{Day, Fault, money_text};
use mf_office::Account;
use std::alloc::Global;

/// The line of some fields, as RFC 4180 has it.
fn line_of(alloc: Global, fields: &[&[u8]]) -> Result<Vec<u8>, Error>
    ensures { IfOk result (λ text. text.items ≡ row_text spec.sheet_writer (map (λ f. f.now) fields.now)) }
{
    let mut writer = WriterBuilder::new()
        .terminator(Terminator::CRLF)
        .from_writer(Vec::new(alloc));
    writer.write_fields(fields)?;
    match writer.into_inner() {
        Ok(text) => Ok(text),
        Err(error) => Err(error.into_error()),
    }
}

/// The loan, where there is one.
fn loan_text(alloc: Global, loan: Option<Account>) -> Result<String, Fault>
    ensures text { IfOk result (λ text. string_bytes text ≡ spec.loan_text loan) }
    ensures only { IsOkUnless result Fault.F20 }
{
    match loan {
        None => Ok(String::new(alloc)),
        Some(loan) => loan.text(alloc),
    }
}

/// What is debited, where something is.
fn debit_text(alloc: Global, amount: i128) -> Result<String, Fault>
    ensures text { IfOk result (λ text. string_bytes text ≡ spec.debit_text amount) }
    ensures only { IsOkUnless result Fault.F20 }
{
    if amount < 0 {
        Ok(String::new(alloc))
    } else {
        money_text(alloc, amount.unsigned_abs())
    }
}

/// What is credited, where something is.
fn credit_text(alloc: Global, amount: i128) -> Result<String, Fault>
    ensures text { IfOk result (λ text. string_bytes text ≡ spec.credit_text amount) }
    ensures only { IsOkUnless result Fault.F20 }
{
    if amount < 0 {
        money_text(alloc, amount.unsigned_abs())
    } else {
        Ok(String::new(alloc))
    }
}

/// The line of a posting.
fn posting_line(
    alloc: Global,
    names: &Names,
    occasion: &Occasion,
    posting: &Posting,
) -> Result<Vec<u8>, Fault>
    ensures text { IfOk result (λ text. text.items
        ≡ row_text spec.sheet_writer (spec.fields_of names.now occasion.now posting.now)) }
    ensures only { IsOkUnless result Fault.F20 }
{
    let day = occasion.day.text(alloc)?;
    let number = occasion.number;
    let number = format!(in alloc; "{number}")?;
    let loan = loan_text(alloc, occasion.loan)?;
    let account = names.name_of(alloc, Program::Hledger, &posting.account)?;
    let debit = debit_text(alloc, posting.amount)?;
    let credit = credit_text(alloc, posting.amount)?;
    let fields = [
        day.as_bytes(),
        number.as_bytes(),
        loan.as_bytes(),
        account.as_bytes(),
        debit.as_bytes(),
        credit.as_bytes(),
    ];
    match line_of(alloc, &fields) {
        Ok(text) => Ok(text),
        Err(_) => Err(Fault::F20),
    }
}

/// The lines of postings in a sheet: one for each whose amount isn't 0. Its only error is F20, out of memory.
pub fn booked_sheet(
    alloc: Global,
    names: &Names,
    occasion: &Occasion,
    postings: &[Posting],
) -> Result<Vec<u8>, Fault>
    ensures text { IfOk result (λ text. text.items
        ≡ spec.sheet_text (spec.rows_of names.now occasion.now postings.now)) }
    ensures only { IsOkUnless result Fault.F20 }
{
    let mut text = Vec::new(alloc);
    for posting in postings {
        if posting.amount != 0 {
            let line = posting_line(alloc, names, occasion, posting)?;
            text.extend_from_slice(line.as_slice())?;
        }
    }
    Ok(text)
}

/// The lines of a transaction in a sheet of comma-separated values: for each amount that isn't 0 the date, the number
/// of the line of the journal, the loan, the account by the names that are given, and what is debited or credited. Its
/// only error is F20, out of memory.
pub fn transaction_sheet(
    alloc: Global,
    names: &Names,
    transaction: &Transaction,
) -> Result<Vec<u8>, Fault>
    ensures text { IfOk result (λ text. text.items
        ≡ spec.sheet_text (spec.transaction_rows names.now transaction.now)) }
    ensures only { IsOkUnless result Fault.F20 }
{
    let occasion = transaction.occasion();
    booked_sheet(alloc, names, &occasion, &transaction.postings)
}

/// The lines of the opening postings of a day, in the same way. Its only error is F20, out of memory.
pub fn opening_sheet(
    alloc: Global,
    names: &Names,
    day: Day,
    postings: &[Posting],
) -> Result<Vec<u8>, Fault>
    ensures text { IfOk result (λ text. text.items
        ≡ spec.sheet_text (spec.opening_rows names.now day postings.now)) }
    ensures only { IsOkUnless result Fault.F20 }
{
    booked_sheet(alloc, names, &Occasion::opening(day), postings)
}

/// The first line of a sheet, which names its columns.
pub fn sheet_columns() -> &'static [u8]
    ensures { result.now ≡ row_text spec.sheet_writer spec.columns }
{
    b"date,number,loan,account,debit,credit\r\n"
}
