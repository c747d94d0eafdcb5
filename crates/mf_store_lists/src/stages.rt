//! The loans of a status of an office.

ghost use Rattle.std.specs.Prelude.{◌≡◌, ◌++◌, ◌+◌, ◌≤◌, ℕ, List, length, map, take, Some, IfOk, OnOk};
ghost use Rattle.std.specs.List.{AllByRecursion, flat_map};
ghost use Rattle.mf_lists.specs.Lists.{stage_day, stages_after};
ghost use Rattle.mf_model.specs.Institution.{Institution, Ledger};
ghost use Rattle.mf_model.specs.Store.{ledger_at, rows_at};
ghost use Rattle.mf_store.specs.Stands.{StandsFor, IsClean, AsksTables, MayAskTables};
ghost use Rattle.mf_store_lists.specs.Told.{staged_line, stage_told};
ghost use Rattle.mf_store_schema.specs.Rows.{loan_row};
ghost use Rattle.mf_store_values.specs.Flat.{loan_in};

use crate::loans::{has_status, name_of};
use mf_base::{Day, Fault, Name};
use mf_lists::StageLine;
use mf_model::{Loan, Stage};
use mf_office::{Account, AccountNo, OfficeNo};
use mf_statement::Listing;
use mf_store::Store;
use mf_store_schema::LoanRow;
use mf_store_values::loan_in_row;
use sqlite::{Alter, Row};
use std::alloc::Global;

/// The day on which a loan came to its stage, where it is kept.
fn stage_day(stage: Stage) -> Option<Day>
    ensures { result ≡ stage_day stage }
{
    match stage {
        Stage::Submitted | Stage::Withdrawn | Stage::Rejected => None,
        Stage::Approved(day) => Some(day),
        Stage::Disbursed { day, .. } => Some(day),
    }
}

/// A loan as it is told among those of its status.
fn staged_line(number: AccountNo, loan: &Loan, name: Name) -> StageLine
    ensures { result ≡ staged_line number loan.now name }
{
    StageLine {
        loan: number,
        client: loan.client,
        name,
        product: loan.product,
        principal: loan.principal,
        day: stage_day(loan.stage),
    }
}

/// Adds the line of a row's loan, where its number is above one and it has a status.
fn put_line<S: Alter>(
    alloc: Global,
    store: &mut Store<S>,
    row: &Row,
    status: u32,
    after: u32,
    lines: &mut Vec<StageLine>,
) -> Result<(), Fault>
    ensures asks { MayAskTables S.Store store.old store.new result }
    ensures one { length lines.new.items ≤ length lines.old.items + 1 }
    ensures added { IsClean S.Store store.new → (i : Institution) → StandsFor S.Store store.old i
        → (office : ℕ) (l : ℕ × Ledger) → row.now ≡ loan_row (loan_in office l.0 l.1.loan)
        → ledger_at (record { office = office; number = l.0 }) i ≡ Some l.1
        → OnOk result (lines.new.items ≡ lines.old.items
        ++ stage_told status after i.catalogue (rows_at office i) l) }
{
    let (account, loan) = loan_in_row(row)?;
    let Account { office, number } = account;
    if number.get() <= after {
        return Ok(());
    }
    let has = has_status(alloc, store, Account { office, number }, &loan, status)?;
    if !has {
        return Ok(());
    }
    let name = name_of(alloc, store, office, loan.client)?;
    lines.push(staged_line(number, &loan, name))?;
    Ok(())
}

/// The most loans that are told at once.
const PAGE: usize = 200;

/// The lines of the first 200 of the rows' loans that have a number above one and a status.
fn lines_of<S: Alter>(
    alloc: Global,
    store: &mut Store<S>,
    rows: &[Row],
    status: u32,
    after: u32,
) -> Result<Listing<StageLine>, Fault>
    ensures asks { MayAskTables S.Store store.old store.new result }
    ensures value { IsClean S.Store store.new → (i : Institution) → StandsFor S.Store store.old i
        → (office : ℕ) (ls : List (ℕ × Ledger))
        → AllByRecursion (λ l. ledger_at (record { office = office; number = l.0 }) i ≡ Some l.1) ls
        → rows.now ≡ map (λ l. loan_row (loan_in office l.0 l.1.loan)) ls
        → IfOk result (λ list. list ≡ take 200 (flat_map (stage_told status after i.catalogue (rows_at office i))
        ls)) }
{
    let mut lines = Vec::new(alloc);
    for row in rows {
        if lines.len() >= PAGE {
            return Ok(Listing::new(lines));
        }
        put_line(alloc, store, row, status, after, &mut lines)?;
    }
    Ok(Listing::new(lines))
}

/// The first 200 loans of an office whose number is above one and that have a status, by number. It reads the rows of
/// the office's loans, and more of those that were disbursed where the status is one of such.
pub fn stages_after<S: Alter>(
    alloc: Global,
    store: &mut Store<S>,
    office: OfficeNo,
    status: u32,
    after: u32,
) -> Result<Listing<StageLine>, Fault>
    ensures asks { AsksTables S.Store store.old store.new result }
    ensures value { IsClean S.Store store.new → (i : Institution) → StandsFor S.Store store.old i
        → IfOk result (λ list. list ≡ stages_after status after i.catalogue (rows_at office i)) }
{
    let rows = store.list::<LoanRow>(office.get())?;
    lines_of(alloc, store, &rows, status, after)
}
