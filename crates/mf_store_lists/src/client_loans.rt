//! The loans of a client.

ghost use Rattle.std.specs.Prelude.{◌≡◌, ◌++◌, ℕ, List, map, Some, IfOk, OnOk};
ghost use Rattle.std.specs.List.{AllByRecursion, flat_map};
ghost use Rattle.mf_lists.specs.Lists.{approved_on, client_loan};
ghost use Rattle.mf_lists_desk.specs.Readings.{client_loans_at};
ghost use Rattle.mf_model.specs.Institution.{Institution, Ledger};
ghost use Rattle.mf_model.specs.Store.{ledger_at};
ghost use Rattle.mf_store.specs.Stands.{StandsFor, IsClean, AsksTables, MayAskTables};
ghost use Rattle.mf_store_lists.specs.Told.{client_told};
ghost use Rattle.mf_store_schema.specs.Rows.{loan_row};
ghost use Rattle.mf_store_values.specs.Flat.{loan_in};

use crate::loans::{instalments_of, left_of, overdue_of};
use mf_base::{Day, Fault};
use mf_lists::ClientLoan;
use mf_model::{Loan, Stage};
use mf_office::{Account, AccountNo};
use mf_statement::Listing;
use mf_store::Store;
use mf_store_schema::LoanRow;
use mf_store_values::loan_in_row;
use sqlite::{Alter, Row};
use std::alloc::Global;

/// The day of a loan's approval, where it has one.
fn approved_on(stage: Stage) -> Option<Day>
    ensures { result ≡ approved_on stage }
{
    match stage {
        Stage::Submitted | Stage::Withdrawn | Stage::Rejected => None,
        Stage::Approved(day) => Some(day),
        Stage::Disbursed { approved, .. } => Some(approved),
    }
}

/// A loan that is there, as it is told of its client on the business day.
fn line_of<S: Alter>(
    alloc: Global,
    store: &mut Store<S>,
    account: Account,
    loan: &Loan,
    today: Day,
) -> Result<ClientLoan, Fault>
    ensures asks { MayAskTables S.Store store.old store.new result }
    ensures value { IsClean S.Store store.new → (i : Institution) → StandsFor S.Store store.old i → (l : Ledger)
        → ledger_at account i ≡ Some l → l.loan ≡ loan.now → today ≡ i.catalogue.day
        → IfOk result (λ line. line ≡ client_loan i.catalogue (account.number, l)) }
{
    let Account { office, number } = account;
    let status = store.status_of(alloc, Account { office, number }, loan)?;
    let rows = instalments_of(alloc, store, Account { office, number }, loan)?;
    let left = left_of(&rows)?;
    let overdue = overdue_of(&rows, today)?;
    Ok(ClientLoan {
        loan: number,
        product: loan.product,
        principal: loan.principal,
        status,
        approved: approved_on(loan.stage),
        disbursed: loan.disbursal_day(),
        left,
        overdue,
    })
}

/// Adds the line of a row's loan, where it is one of a client.
fn put_line<S: Alter>(
    alloc: Global,
    store: &mut Store<S>,
    row: &Row,
    client: AccountNo,
    today: Day,
    lines: &mut Vec<ClientLoan>,
) -> Result<(), Fault>
    ensures asks { MayAskTables S.Store store.old store.new result }
    ensures added { IsClean S.Store store.new → (i : Institution) → StandsFor S.Store store.old i
        → today ≡ i.catalogue.day → (office : ℕ) (l : ℕ × Ledger) → row.now ≡ loan_row (loan_in office l.0 l.1.loan)
        → ledger_at (record { office = office; number = l.0 }) i ≡ Some l.1
        → OnOk result (lines.new.items ≡ lines.old.items ++ client_told client i.catalogue l) }
{
    let (account, loan) = loan_in_row(row)?;
    if loan.client.get() != client.get() {
        return Ok(());
    }
    let line = line_of(alloc, store, account, &loan, today)?;
    lines.push(line)?;
    Ok(())
}

/// The lines of those of the rows' loans that are a client's.
fn lines_of<S: Alter>(
    alloc: Global,
    store: &mut Store<S>,
    rows: &[Row],
    client: AccountNo,
    today: Day,
) -> Result<Listing<ClientLoan>, Fault>
    ensures asks { MayAskTables S.Store store.old store.new result }
    ensures value { IsClean S.Store store.new → (i : Institution) → StandsFor S.Store store.old i
        → today ≡ i.catalogue.day → (office : ℕ) (ls : List (ℕ × Ledger))
        → AllByRecursion (λ l. ledger_at (record { office = office; number = l.0 }) i ≡ Some l.1) ls
        → rows.now ≡ map (λ l. loan_row (loan_in office l.0 l.1.loan)) ls
        → IfOk result (λ list. list ≡ flat_map (client_told client i.catalogue) ls) }
{
    let mut lines = Vec::new(alloc);
    for row in rows {
        put_line(alloc, store, row, client, today, &mut lines)?;
    }
    Ok(Listing::new(lines))
}

/// The loans of a client, by number, or None where there is no such client. It reads the rows of the office's loans,
/// and more of the client's.
pub fn loans_of_client<S: Alter>(
    alloc: Global,
    store: &mut Store<S>,
    client: Account,
) -> Result<Option<Listing<ClientLoan>>, Fault>
    ensures asks { AsksTables S.Store store.old store.new result }
    ensures value { IsClean S.Store store.new → (i : Institution) → StandsFor S.Store store.old i
        → IfOk result (λ told. told ≡ client_loans_at client i) }
{
    let Account { office, number } = client;
    let today = store.business_day()?;
    if store.client(Account { office, number })?.is_none() {
        return Ok(None);
    }
    let rows = store.list::<LoanRow>(office.get())?;
    let lines = lines_of(alloc, store, &rows, number, today)?;
    Ok(Some(lines))
}
