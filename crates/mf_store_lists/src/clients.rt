//! The clients of an office, with the counts of their loans.

ghost use Rattle.std.specs.Prelude.{◌≡◌, ◌++◌, ◌+◌, ◌∷◌, [], ◌==◌, ◌&&◌, ◌≤◌, ℕ, List, length, map, take};
ghost use Rattle.std.specs.Prelude.{nat_lt, Some, IfOk, IfErr, OnOk, IsTrue};
ghost use Rattle.std.specs.List.{AllByRecursion, enumerate_from, flat_map, list_any};
ghost use Rattle.mf_base.specs.declared.fault.Fault.TheVariants.{F20};
ghost use Rattle.mf_arrears.specs.Ageing.{days_overdue};
ghost use Rattle.mf_lists.specs.declared.lines.ClientLine.{ClientLine};
ghost use Rattle.mf_lists.specs.Lists.{clients_after, counted_client};
ghost use Rattle.mf_model.specs.Institution.{Institution, Ledger, item_numbered};
ghost use Rattle.mf_model.specs.Store.{ledger_at, rows_at};
ghost use Rattle.mf_store.specs.Stands.{StandsFor, IsClean, Stays, AsksTables, MayAskTables};
ghost use Rattle.mf_store_lists.specs.Counted.{IsBetween, counted_by, loan_count, one_more, uncounted, waits};
ghost use Rattle.mf_store_lists.specs.Counted.{with_count};
ghost use Rattle.mf_store_lists.specs.Told.{told_if};
ghost use Rattle.mf_store_schema.specs.Rows.{client_row, loan_row};
ghost use Rattle.mf_store_values.specs.Flat.{client_in, loan_in};

use crate::loans::{account_number, instalments_of};
use mf_alloc::Instalment;
use mf_arrears::arrears;
use mf_base::{Day, Fault};
use mf_lists::ClientLine;
use mf_model::{Loan, Stage};
use mf_office::{Account, OfficeNo};
use mf_statement::Listing;
use mf_store::Store;
use mf_store_schema::{ClientRow, LoanRow, read_row};
use mf_store_values::{is_active, loan_in_row, or_give_up};
use sqlite::{Alter, Row};
use std::alloc::Global;

/// How a loan counts for its client.
#[derive(Clone, Copy)]
pub(crate) struct LoanCount {
    waiting: bool,
    active: bool,
    overdue: bool,
}

/// The least and the greatest that some numbers may be.
#[derive(Clone, Copy)]
pub(crate) struct Bounds {
    low: u32,
    high: u32,
}

/// Whether a loan waits for its approval or for its disbursement.
fn waits(stage: Stage) -> bool
    ensures { result ≡ waits stage }
{
    match stage {
        Stage::Submitted | Stage::Approved(_) => true,
        Stage::Disbursed { .. } | Stage::Withdrawn | Stage::Rejected => false,
    }
}

/// Whether instalments of a loan, active or not, are overdue on a day.
fn is_overdue(active: bool, rows: &[Instalment], today: Day) -> bool
    ensures { result ≡ (active && nat_lt 0 (days_overdue rows.now today)) }
{
    active && arrears(rows, today) > 0
}

/// How a loan that is there counts on the business day.
fn count_of<S: Alter>(
    alloc: Global,
    store: &mut Store<S>,
    account: Account,
    loan: &Loan,
    today: Day,
) -> Result<LoanCount, Fault>
    ensures asks { MayAskTables S.Store store.old store.new result }
    ensures value { IsClean S.Store store.new → (i : Institution) → StandsFor S.Store store.old i → (l : Ledger)
        → ledger_at account i ≡ Some l → l.loan ≡ loan.now → today ≡ i.catalogue.day
        → IfOk result (λ count. count ≡ loan_count i.catalogue l) }
{
    let rows = instalments_of(alloc, store, account, loan)?;
    let active = is_active(&rows);
    let overdue = is_overdue(active, &rows, today);
    Ok(LoanCount {
        waiting: waits(loan.stage),
        active,
        overdue,
    })
}

/// A count with one more where it is so.
fn one_more(count: u32, is: bool) -> Result<u32, Fault>
    ensures count { IfOk result (λ more. more ≡ one_more count is) }
    ensures gives_up { IfErr result (λ fault. fault ≡ F20) }
{
    if !is {
        return Ok(count);
    }
    match count.checked_add(1) {
        Some(more) => Ok(more),
        None => Err(Fault::F20),
    }
}

/// Counts a loan of a client, where the line is theirs. At an error the line says nothing.
fn count_in(line: &mut ClientLine, client: u32, count: LoanCount) -> Result<(), Fault>
    ensures counted { OnOk result (line.new ≡ with_count client count line.old) }
    ensures gives_up { IfErr result (λ fault. fault ≡ F20) }
{
    if client != line.number.get() {
        return Ok(());
    }
    line.waiting = one_more(line.waiting, count.waiting)?;
    line.active = one_more(line.active, count.active)?;
    line.overdue = one_more(line.overdue, count.overdue)?;
    Ok(())
}

/// Counts a loan of a client among the lines. At an error they say nothing.
fn count_among(lines: &mut [ClientLine], client: u32, count: LoanCount) -> Result<(), Fault>
    ensures counted { OnOk result (lines.new ≡ map (with_count client count) lines.old) }
    ensures gives_up { IfErr result (λ fault. fault ≡ F20) }
{
    for line in lines.iter_mut() {
        count_in(line, client, count)?;
    }
    Ok(())
}

/// Bounds with one more number between them.
fn widened(bounds: Bounds, number: u32) -> Bounds
    ensures low { result.low ≤ bounds.low }
    ensures high { bounds.high ≤ result.high }
    ensures between { IsBetween result number }
{
    let low = if number < bounds.low {
        number
    } else {
        bounds.low
    };
    let high = if bounds.high < number {
        number
    } else {
        bounds.high
    };
    Bounds { low, high }
}

/// Bounds between which the numbers of the lines' clients lie.
fn bounds_of(lines: &[ClientLine]) -> Bounds
    ensures { AllByRecursion (λ (line : ClientLine). IsBetween result line.number) lines.now }
{
    let mut bounds = Bounds {
        low: u32::MAX,
        high: 0,
    };
    for line in lines {
        bounds = widened(bounds, line.number.get());
    }
    bounds
}

/// Whether a number doesn't lie between bounds.
fn is_outside(bounds: Bounds, number: u32) -> bool
    ensures { IsTrue result → ¬ IsBetween bounds number }
{
    number < bounds.low || bounds.high < number
}

/// Whether one of the lines is a client's.
fn is_among(lines: &[ClientLine], client: u32) -> bool
    ensures { result ≡ list_any (λ (line : ClientLine). client == line.number) lines.now }
{
    lines.iter().any(|line| client == line.number.get())
}

/// The same of lines whose clients' numbers lie between bounds, as those of most loans don't.
fn is_listed(lines: &[ClientLine], bounds: Bounds, client: u32) -> bool
    ensures { AllByRecursion (λ (line : ClientLine). IsBetween bounds line.number) lines.now
        → result ≡ list_any (λ (line : ClientLine). client == line.number) lines.now }
{
    if is_outside(bounds, client) {
        return false;
    }
    is_among(lines, client)
}

/// Counts a row's loan among the lines, where one of them is its client's. Their numbers lie between bounds. At an
/// error the lines say nothing.
fn count_row<S: Alter>(
    alloc: Global,
    store: &mut Store<S>,
    row: &Row,
    today: Day,
    bounds: Bounds,
    lines: &mut [ClientLine],
) -> Result<(), Fault>
    ensures asks { MayAskTables S.Store store.old store.new result }
    ensures counted { IsClean S.Store store.new → (i : Institution) → StandsFor S.Store store.old i
        → today ≡ i.catalogue.day → (office : ℕ) (l : ℕ × Ledger) → row.now ≡ loan_row (loan_in office l.0 l.1.loan)
        → ledger_at (record { office = office; number = l.0 }) i ≡ Some l.1
        → (loans : List Ledger) (clients : List (ℕ × List ℕ))
        → lines.old ≡ map (counted_by i.catalogue loans) clients → AllByRecursion (λ c. IsBetween bounds c.0) clients
        → OnOk result (lines.new ≡ map (counted_by i.catalogue (loans ++ l.1 ∷ [])) clients) }
{
    let (account, loan) = loan_in_row(row)?;
    let client = loan.client.get();
    if !is_listed(lines, bounds, client) {
        return Ok(());
    }
    let count = count_of(alloc, store, account, &loan, today)?;
    count_among(lines, client, count)?;
    Ok(())
}

/// Counts the rows' loans among lines in which none is counted. At an error they say nothing.
fn count_rows<S: Alter>(
    alloc: Global,
    store: &mut Store<S>,
    rows: &[Row],
    today: Day,
    lines: &mut [ClientLine],
) -> Result<(), Fault>
    ensures asks { MayAskTables S.Store store.old store.new result }
    ensures counted { IsClean S.Store store.new → (i : Institution) → StandsFor S.Store store.old i
        → today ≡ i.catalogue.day → (office : ℕ) (ls : List (ℕ × Ledger))
        → AllByRecursion (λ l. ledger_at (record { office = office; number = l.0 }) i ≡ Some l.1) ls
        → rows.now ≡ map (λ l. loan_row (loan_in office l.0 l.1.loan)) ls
        → (clients : List (ℕ × List ℕ)) → lines.old ≡ map uncounted clients
        → OnOk result (lines.new ≡ map (counted_by i.catalogue (map (λ l. l.1) ls)) clients) }
{
    let bounds = bounds_of(lines);
    for row in rows {
        count_row(alloc, store, row, today, bounds, lines)?;
    }
    Ok(())
}

/// Counts the loans of an office among lines of its clients, in which none is counted. At an error they say nothing.
pub(crate) fn count_loans<S: Alter>(
    alloc: Global,
    store: &mut Store<S>,
    office: OfficeNo,
    lines: &mut [ClientLine],
) -> Result<(), Fault>
    ensures asks { AsksTables S.Store store.old store.new result }
    ensures counted { IsClean S.Store store.new → (i : Institution) → StandsFor S.Store store.old i
        → (clients : List (ℕ × List ℕ)) → lines.old ≡ map uncounted clients
        → OnOk result (lines.new ≡ map (counted_client i.catalogue (rows_at office i)) clients) }
{
    let today = store.business_day()?;
    let rows = store.list::<LoanRow>(office.get())?;
    count_rows(alloc, store, &rows, today, lines)?;
    Ok(())
}

/// The client of a row, none of whose loans is counted.
pub(crate) fn client_of(row: &Row) -> Result<ClientLine, Fault>
    ensures client { IfOk result (λ line. (office : ℕ) (c : ℕ × List ℕ)
        → row.now ≡ client_row (client_in office c.0 c.1) → line ≡ uncounted c) }
    ensures gives_up { IfErr result (λ fault. fault ≡ F20) }
{
    let found = read_row::<ClientRow>(row)?;
    let number = account_number(found.number)?;
    Ok(ClientLine {
        number,
        name: found.name.into_name(),
        waiting: 0,
        active: 0,
        overdue: 0,
    })
}

/// Adds the client of a row, where their number is above one.
fn put_client(row: &Row, after: u32, lines: &mut Vec<ClientLine>) -> Result<(), Fault>
    ensures one { length lines.new.items ≤ length lines.old.items + 1 }
    ensures added { OnOk result ((office : ℕ) (c : ℕ × List ℕ) → row.now ≡ client_row (client_in office c.0 c.1)
        → lines.new.items ≡ lines.old.items ++ told_if (nat_lt after c.0) (uncounted c)) }
    ensures gives_up { IfErr result (λ fault. fault ≡ F20) }
{
    let line = client_of(row)?;
    if line.number.get() <= after {
        return Ok(());
    }
    lines.push(line)?;
    Ok(())
}

/// The most clients that are told at once.
const PAGE: usize = 500;

/// The first 500 of the rows' clients whose number is above one.
fn page_of(alloc: Global, rows: &[Row], after: u32) -> Result<Vec<ClientLine>, Fault>
    ensures clients { IfOk result (λ lines. (office : ℕ) (cs : List (ℕ × List ℕ))
        → rows.now ≡ map (λ c. client_row (client_in office c.0 c.1)) cs
        → lines.items ≡ take 500 (flat_map (λ c. told_if (nat_lt after c.0) (uncounted c)) cs)) }
    ensures gives_up { IfErr result (λ fault. fault ≡ F20) }
{
    let mut lines = Vec::new(alloc);
    for row in rows {
        if lines.len() >= PAGE {
            return Ok(lines);
        }
        put_client(row, after, &mut lines)?;
    }
    Ok(lines)
}

/// The client under a number, who is there; none of their loans is counted.
fn client_numbered<S: Alter>(
    store: &mut Store<S>,
    office: OfficeNo,
    number: u32,
) -> Result<ClientLine, Fault>
    ensures asks { AsksTables S.Store store.old store.new result }
    ensures client { IsClean S.Store store.new → (i : Institution) → StandsFor S.Store store.old i → (name : List ℕ)
        → item_numbered (rows_at office i).clients number ≡ Some name
        → IfOk result (λ line. line ≡ uncounted (number, name)) }
{
    let number = account_number(number)?;
    let found = store.client(Account { office, number })?;
    let name = or_give_up(found)?;
    Ok(ClientLine {
        number,
        name,
        waiting: 0,
        active: 0,
        overdue: 0,
    })
}

/// The first 500 clients of an office of so many whose number is above one, each of them looked up.
fn page_looked_up<S: Alter>(
    alloc: Global,
    store: &mut Store<S>,
    office: OfficeNo,
    after: u32,
    clients: u32,
) -> Result<Vec<ClientLine>, Fault>
    ensures asks { MayAskTables S.Store store.old store.new result }
    ensures value { IsClean S.Store store.new → (i : Institution) → StandsFor S.Store store.old i
        → clients ≡ length (rows_at office i).clients
        → IfOk result (λ lines. lines.items ≡ take 500 (flat_map (λ c. told_if (nat_lt after c.0) (uncounted c))
        (enumerate_from 1 (rows_at office i).clients))) }
{
    let mut lines = Vec::new(alloc);
    for before in after..clients {
        if lines.len() >= PAGE {
            return Ok(lines);
        }
        let line = client_numbered(store, office, before + 1)?;
        lines.push(line)?;
    }
    Ok(lines)
}

/// The most clients of an office whose rows are read all at once where a page of them is asked for. One row of these
/// takes a quarter of what the same row takes that is looked up.
const FEW: u32 = 2_000;

/// The first 500 clients of an office whose number is above one. Where it has more than 2,000 they are looked up by
/// their numbers; else all its clients are read.
fn first_page<S: Alter>(
    alloc: Global,
    store: &mut Store<S>,
    office: OfficeNo,
    after: u32,
) -> Result<Vec<ClientLine>, Fault>
    ensures asks { MayAskTables S.Store store.old store.new result }
    ensures value { IsClean S.Store store.new → (i : Institution) → StandsFor S.Store store.old i
        → IfOk result (λ lines. lines.items ≡ take 500 (flat_map (λ c. told_if (nat_lt after c.0) (uncounted c))
        (enumerate_from 1 (rows_at office i).clients))) }
{
    let counts = store.next_numbers(office)?;
    if counts.clients > FEW {
        return page_looked_up(alloc, store, office, after, counts.clients);
    }
    let rows = store.list::<ClientRow>(office.get())?;
    page_of(alloc, &rows, after)
}

/// The first 500 clients of an office whose number is above one, by number. It reads these, or all clients of an office
/// of few, the rows of the office's loans, and the instalments of the loans of those that it tells.
pub fn clients_after<S: Alter>(
    alloc: Global,
    store: &mut Store<S>,
    office: OfficeNo,
    after: u32,
) -> Result<Listing<ClientLine>, Fault>
    ensures asks { AsksTables S.Store store.old store.new result }
    ensures value { IsClean S.Store store.new → (i : Institution) → StandsFor S.Store store.old i
        → IfOk result (λ list. list ≡ clients_after after i.catalogue (rows_at office i)) }
{
    let mut lines = first_page(alloc, store, office, after)?;
    count_loans(alloc, store, office, &mut lines)?;
    Ok(Listing::new(lines))
}
