//! What is shown of a loan's instalments, with what is outstanding of each.

ghost use Rattle.std.specs.Prelude.{◌≡◌, ◌≢◌, ◌≤◌, ◌<◌, ◌^◌, ◌↔◌, length, None, Some, IsTrue, IfOk, IfSome, IsOkUnless};
ghost use Rattle.mf_alloc.specs.Sums.{row_outstanding};
ghost use Rattle.mf_account.specs.Loan.{DisbursedLoan, IsSoundDisbursed, state_of_loan};
ghost use Rattle.mf_account.specs.Told.{IsRowSmall, AreRowsSmall};
ghost use Rattle.mf_statement.specs.Lines.{instalment_line, instalments_from, instalments_of};

use crate::lines::{InstalmentLine, InstalmentList};
use crate::listing::Listing;
use mf_account::LoanAccount;
use mf_alloc::{Instalment, Portion};
use mf_base::Fault;
use std::alloc::Global;

/// What is outstanding of an instalment over all portions, in whole cents.
fn outstanding(row: &Instalment) -> u64
    requires { IsRowSmall row.now }
    ensures { result ≡ row_outstanding row.now }
{
    row.outstanding(Portion::Penalty)
        + row.outstanding(Portion::Fee)
        + row.outstanding(Portion::Interest)
        + row.outstanding(Portion::Principal)
}

/// An instalment as it stands, with its number.
fn instalment_line(number: u32, row: &Instalment) -> InstalmentLine
    requires { IsRowSmall row.now }
    ensures { result ≡ instalment_line number row.now }
{
    InstalmentLine {
        number,
        due: row.due,
        owed: row.owed,
        outstanding: outstanding(row),
    }
}

/// Instalments as they stand, numbered from 1.
fn lines_of(alloc: Global, rows: &[Instalment]) -> Result<Vec<InstalmentLine>, Fault>
    requires few { length rows.now ≤ 360 }
    requires small { AreRowsSmall rows.now }
    ensures lines { IfOk result (λ lines. lines.items ≡ instalments_from 1 rows.now) }
    ensures only { IsOkUnless result Fault.F20 }
{
    let mut lines = Vec::new(alloc);
    for (place, row) in rows.iter().enumerate() {
        lines.push(instalment_line(place as u32 + 1, row))?;
    }
    Ok(lines)
}

/// Whether what is outstanding of an instalment over all portions is less than 2^64 cents.
fn is_small(row: &Instalment) -> bool
    ensures { IsTrue result ↔ IsRowSmall row.now }
{
    let penalty = row.outstanding(Portion::Penalty) as u128;
    let fee = row.outstanding(Portion::Fee) as u128;
    let interest = row.outstanding(Portion::Interest) as u128;
    let principal = row.outstanding(Portion::Principal) as u128;
    penalty + fee + interest + principal <= u64::MAX as u128
}

/// Whether instalments are no more than any loan's, each with less than 2^64 cents outstanding.
fn are_tellable(rows: &[Instalment]) -> bool
    ensures { IsTrue result ↔ ((length rows.now ≤ 360) × AreRowsSmall rows.now) }
{
    rows.len() <= 360 && rows.iter().all(|row| is_small(row))
}

/// The instalments of an account as they stand, by number. The only error is F20, out of memory.
pub fn instalment_lines(alloc: Global, account: &LoanAccount) -> Result<InstalmentList, Fault>
    ensures lines { IfOk result (λ lines. lines ≡ instalments_from 1 account.now.state.rows) }
    ensures only { IsOkUnless result Fault.F20 }
{
    let lines = lines_of(alloc, account.rows())?;
    Ok(Listing::new(lines))
}

/// Instalments that were read, as they stand, by number. None where they are no loan's: more than 360, or one of which
/// 2^64 cents or more are outstanding. The only error is F20, out of memory.
pub fn instalment_lines_of_rows(
    alloc: Global,
    rows: &[Instalment],
) -> Result<Option<InstalmentList>, Fault>
    ensures lines { IfOk result (λ found. IfSome found (λ lines. lines ≡ instalments_from 1 rows.now)) }
    ensures some { length rows.now ≤ 360 → AreRowsSmall rows.now → IfOk result (λ found. found ≢ None) }
    ensures loan { (loan : DisbursedLoan) → IsSoundDisbursed loan → rows.now ≡ (state_of_loan loan).rows
        → IfOk result (λ found. found ≡ Some (instalments_of loan)) }
    ensures only { IsOkUnless result Fault.F20 }
{
    if !are_tellable(rows) {
        return Ok(None);
    }
    let lines = lines_of(alloc, rows)?;
    Ok(Some(Listing::new(lines)))
}
