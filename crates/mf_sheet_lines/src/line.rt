//! A line of a sheet, and what it asks for.

ghost use Rattle.std.specs.Prelude.{◌≡◌, ◌==◌, ◌≤◌, ℕ, List, Some, None, IfOk, IfErr, IfSome, codes, cond, length, map};
ghost use Rattle.std.specs.Prelude.{option_map};
ghost use Rattle.csv.specs.Records.{fields_of};
ghost use Rattle.mf_sheet_lines.specs.Lines.{four_columns_of, sheet_line_of, IsLineInRange, is_column_name};
ghost use Rattle.mf_sheet_lines.specs.Lines.{names_columns};

use crate::fields::{amount, day, receipt, without_blanks};
use csv::ByteRecord;
use mf_account::Receipt;
use mf_base::{Day, Fault};
use mf_office::Account;
use std::alloc::Global;

/// A repayment that a line of a sheet asks for.
#[derive(Drop)]
pub struct SheetRepayment {
    /// Its receipt, which each line of a sheet has.
    pub receipt: Receipt,
    /// The loan that is paid back.
    pub loan: Account,
    /// The day on which it was paid.
    pub day: Day,
    /// The amount, in cents.
    pub amount: u64,
}

/// What a line of a sheet asks for.
#[derive(Drop)]
pub enum SheetLine {
    /// A repayment.
    Repay(SheetRepayment),
    /// Nothing: the line has not four fields, or one of them is not as it should be.
    Bad,
}

/// The fields of a line, by their columns, as they stand.
#[derive(Clone, Copy)]
struct Fields<'a> {
    receipt: &'a [u8],
    loan: &'a [u8],
    date: &'a [u8],
    amount: &'a [u8],
}

/// The fields of a record that has four.
fn four_fields(row: &ByteRecord) -> Option<Fields<'_>>
    ensures { option_map (λ f. record {
      receipt = f.receipt.now;
      loan = f.loan.now;
      date = f.date.now;
      amount = f.amount.now;
    }) result ≡ four_columns_of (fields_of row.now) }
{
    if row.len() != 4 {
        return None;
    }
    Some(Fields {
        receipt: row.get(0)?,
        loan: row.get(1)?,
        date: row.get(2)?,
        amount: row.get(3)?,
    })
}

fn is_name(name: &[u8], field: &[u8]) -> bool
    ensures { result ≡ is_column_name name.now field.now }
{
    without_blanks(field).eq_ignore_ascii_case(name)
}

/// Whether a record names the columns of a sheet, in any case of ASCII.
pub fn names_columns(row: &ByteRecord) -> bool
    ensures { result ≡ names_columns (fields_of row.now) }
{
    let Some(fields) = four_fields(row) else {
        return false;
    };
    is_name(b"receipt", fields.receipt)
        && is_name(b"loan", fields.loan)
        && is_name(b"date", fields.date)
        && is_name(b"amount", fields.amount)
}

/// What a record asks for. The only error is `Fault::F20`, out of memory.
pub fn read_line(alloc: Global, row: &ByteRecord) -> Result<SheetLine, Fault>
    ensures ok { IfOk result (λ line. line ≡ sheet_line_of (fields_of row.now)) }
    ensures in_range { IfOk result IsLineInRange }
    ensures err { IfErr result (λ fault. fault ≡ Fault.F20) }
{
    let Some(fields) = four_fields(row) else {
        return Ok(SheetLine::Bad);
    };
    let Some(receipt) = receipt(without_blanks(fields.receipt)) else {
        return Ok(SheetLine::Bad);
    };
    let Some(loan) = Account::parse(without_blanks(fields.loan)) else {
        return Ok(SheetLine::Bad);
    };
    let Some(day) = day(without_blanks(fields.date)) else {
        return Ok(SheetLine::Bad);
    };
    let Some(amount) = amount(without_blanks(fields.amount)) else {
        return Ok(SheetLine::Bad);
    };
    let receipt = Receipt::new(String::from_str(alloc, receipt)?);
    Ok(SheetLine::Repay(SheetRepayment {
        receipt,
        loan,
        day,
        amount,
    }))
}
