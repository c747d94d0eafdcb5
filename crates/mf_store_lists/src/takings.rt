//! What was paid in and paid out at an office on a business day, by the journal.

ghost use Rattle.std.specs.Prelude.{◌≡◌, ◌<◌, ◌++◌, ◌∷◌, [], List, map, length, slice_get, Some};
ghost use Rattle.std.specs.Prelude.{IfOk, IfErr, option_map};
ghost use Rattle.mf_account.specs.declared.entry.Entry.{Entry};
ghost use Rattle.mf_base.specs.declared.fault.Fault.TheVariants.{F20};
ghost use Rattle.mf_journal.specs.Chain.{line_of_row};
ghost use Rattle.mf_lists.specs.Takings.{handed_over, is_of_day, movement_asked, movement_on, movements_on, refund_of};
ghost use Rattle.mf_lists.specs.Takings.{takings_of, takings_on};
ghost use Rattle.mf_lists_desk.specs.Readings.{takings_at};
ghost use Rattle.mf_model.specs.declared.request.LoanRequest.TheVariants.{Reverse};
ghost use Rattle.mf_model.specs.Institution.{Institution, JournalLine, item_numbered};
ghost use Rattle.mf_model.specs.Store.{ledger_at, rows_at, statement_at};
ghost use Rattle.mf_store.specs.Stands.{StandsFor, IsClean, AsksTables, MayAskTables};
ghost use Rattle.mf_store_noted.specs.Kept.{begins_of};
ghost use Rattle.mf_store_lists.specs.DayTold.{asked_in, sought_on};

use crate::changes::{caller_of, narrow};
use crate::loans::sum_of;
use mf_account::{Entry, Kind};
use mf_base::{Day, Fault};
use mf_journal::{Head, JournalRow};
use mf_lists::{Movement, Taking, Way, with_movement};
use mf_model::{LoanRequest, LoanStep, Posting, Request, Statement};
use mf_office::{Account, Caller, OfficeNo};
use mf_statement::Listing;
use mf_store::Store;
use mf_store_journal::{Sought, lines_told, number_after};
use mf_wire_requests::{Routes, read_request};
use sqlite::Alter;
use std::alloc::Global;

/// What a loan's disbursement moves.
fn handed_over(told: &Statement) -> Movement
    ensures { result ≡ handed_over told.now }
{
    let fee = told.balances.disbursement_fee;
    if told.principal < fee {
        Movement {
            way: Way::PaidIn,
            amount: fee - told.principal,
        }
    } else {
        Movement {
            way: Way::PaidOut,
            amount: told.principal - fee,
        }
    }
}

/// What a refund of a loan gives back.
fn refund_of(told: &Statement) -> Result<u64, Fault>
    ensures amount { IfOk result (λ amount. amount ≡ refund_of told.now) }
    ensures gives_up { IfErr result (λ fault. fault ≡ F20) }
{
    sum_of(told.balances.overpaid, told.balances.refunded)
}

/// What the disbursement of a loan moves, where it is there.
fn disbursed<S: Alter>(
    alloc: Global,
    store: &mut Store<S>,
    loan: Account,
) -> Result<Option<Movement>, Fault>
    ensures asks { MayAskTables S.Store store.old store.new result }
    ensures value { IsClean S.Store store.new → (i : Institution) → StandsFor S.Store store.old i
        → IfOk result (λ found. found ≡ option_map handed_over (statement_at loan i)) }
{
    match store.statement(alloc, loan)? {
        Some(told) => Ok(Some(handed_over(&told))),
        None => Ok(None),
    }
}

/// What a refund of a loan moves, or its reversal, where the loan is there.
fn refunded<S: Alter>(
    alloc: Global,
    store: &mut Store<S>,
    loan: Account,
    way: Way,
) -> Result<Option<Movement>, Fault>
    ensures asks { MayAskTables S.Store store.old store.new result }
    ensures value { IsClean S.Store store.new → (i : Institution) → StandsFor S.Store store.old i
        → IfOk result (λ found. found ≡ option_map (λ told. record { way = way; amount = refund_of told })
        (statement_at loan i)) }
{
    match store.statement(alloc, loan)? {
        Some(told) => {
            let amount = refund_of(&told)?;
            Ok(Some(Movement { way, amount }))
        }
        None => Ok(None),
    }
}

/// The kind and the amount of an entry, by its number, where it is there.
fn entry_numbered(entries: &[Entry], number: u32) -> Option<(Kind, u64)>
    ensures { result ≡ option_map (λ (e : Entry). (e.kind, e.amount)) (item_numbered entries.now number) }
{
    if number == 0 {
        return None;
    }
    let entry = entries.get((number - 1) as usize)?;
    Some((entry.kind, entry.amount))
}

/// What the reversal of an entry of a loan moves.
fn reversed<S: Alter>(
    alloc: Global,
    store: &mut Store<S>,
    loan: Account,
    entry: u32,
) -> Result<Option<Movement>, Fault>
    ensures asks { MayAskTables S.Store store.old store.new result }
    ensures value { IsClean S.Store store.new → (i : Institution) → StandsFor S.Store store.old i
        → IfOk result (λ found. found ≡ movement_on (Reverse entry) i.catalogue (ledger_at loan i)) }
{
    let Account { office, number } = loan;
    let entries = store.entries_at(alloc, Account { office, number })?;
    match entry_numbered(&entries, entry) {
        Some((Kind::Repay, amount)) => Ok(Some(Movement {
            way: Way::InReversed,
            amount,
        })),
        Some((Kind::Refund, _)) => refunded(
            alloc,
            store,
            Account { office, number },
            Way::OutReversed,
        ),
        _ => Ok(None),
    }
}

/// What a request on a loan moves. Of a repayment nothing is read.
fn movement_on<S: Alter>(
    alloc: Global,
    store: &mut Store<S>,
    loan: Account,
    asked: LoanRequest,
) -> Result<Option<Movement>, Fault>
    ensures asks { MayAskTables S.Store store.old store.new result }
    ensures value { IsClean S.Store store.new → (i : Institution) → StandsFor S.Store store.old i
        → IfOk result (λ found. found ≡ movement_on asked i.catalogue (ledger_at loan i)) }
{
    match asked {
        LoanRequest::Repay(repayment) => Ok(Some(Movement {
            way: Way::PaidIn,
            amount: repayment.amount,
        })),
        LoanRequest::Take(LoanStep::Disburse(_)) => disbursed(alloc, store, loan),
        LoanRequest::Post(Posting::Refund) => refunded(alloc, store, loan, Way::PaidOut),
        LoanRequest::Reverse { entry } => reversed(alloc, store, loan, entry),
        _ => Ok(None),
    }
}

/// What a request moves at an office.
fn movement_asked<S: Alter>(
    alloc: Global,
    store: &mut Store<S>,
    office: OfficeNo,
    request: Request,
) -> Result<Option<Movement>, Fault>
    ensures asks { MayAskTables S.Store store.old store.new result }
    ensures value { IsClean S.Store store.new → (i : Institution) → StandsFor S.Store store.old i
        → IfOk result (λ found. found ≡ movement_asked request i.catalogue (rows_at office i)) }
{
    match request {
        Request::Loan { loan, asked } => {
            let number = loan.number;
            movement_on(alloc, store, Account { office, number }, asked)
        }
        _ => Ok(None),
    }
}

/// What a line's text moves at an office. A text that reads as no request moves nothing.
fn movement_of<S: Alter>(
    alloc: Global,
    routes: &Routes,
    store: &mut Store<S>,
    office: OfficeNo,
    row: JournalRow<'_>,
) -> Result<Option<Movement>, Fault>
    ensures asks { MayAskTables S.Store store.old store.new result }
    ensures value { IsClean S.Store store.new → (i : Institution) → StandsFor S.Store store.old i
        → IfOk result (λ found. found ≡ movement_asked (asked_in (line_of_row row.entry)) i.catalogue
        (rows_at office i)) }
{
    match read_request(alloc, routes, row.method, row.path, row.body) {
        Ok(request) => movement_asked(alloc, store, office, request),
        Err(Fault::F20) => Err(Fault::F20),
        Err(_) => Ok(None),
    }
}

/// Whether a line names an office and was accepted on a day.
fn is_of_day(row: JournalRow<'_>, office: OfficeNo, day: Day) -> bool
    ensures { result ≡ is_of_day office day (line_of_row row.entry) }
{
    row.named_office == u64::from(office.get()) && row.day == u64::from(day.number())
}

/// Takings of an office on a day with what one more line moved, where it is of that office and day.
fn put_line<S: Alter>(
    alloc: Global,
    routes: &Routes,
    store: &mut Store<S>,
    office: OfficeNo,
    day: Day,
    row: JournalRow<'_>,
    takings: Vec<Taking>,
) -> Result<Vec<Taking>, Fault>
    ensures asks { MayAskTables S.Store store.old store.new result }
    ensures more { IsClean S.Store store.new → (i : Institution) → StandsFor S.Store store.old i
        → (before : List (Caller × Movement)) → takings.items ≡ takings_of before
        → IfOk result (λ more. more.items ≡ takings_of (before
        ++ movements_on office day i.catalogue (rows_at office i) (line_of_row row.entry ∷ []))) }
{
    if !is_of_day(row, office, day) {
        return Ok(takings);
    }
    let Some(movement) = movement_of(alloc, routes, store, office, row)? else {
        return Ok(takings);
    };
    let staff = caller_of(row)?;
    with_movement(alloc, &takings, &staff, &movement)
}

/// The row at a place.
fn row_at<'a>(rows: &[JournalRow<'a>], at: usize) -> JournalRow<'a>
    requires { at < length rows.now }
    ensures { slice_get rows.now at ≡ Some result }
{
    rows[at]
}

/// The same of lines, one after another.
fn put_lines<S: Alter>(
    alloc: Global,
    routes: &Routes,
    store: &mut Store<S>,
    office: OfficeNo,
    day: Day,
    rows: &[JournalRow<'_>],
    takings: Vec<Taking>,
) -> Result<Vec<Taking>, Fault>
    ensures asks { MayAskTables S.Store store.old store.new result }
    ensures more { IsClean S.Store store.new → (i : Institution) → StandsFor S.Store store.old i
        → (before : List (Caller × Movement)) → takings.items ≡ takings_of before
        → IfOk result (λ more. more.items ≡ takings_of (before
        ++ movements_on office day i.catalogue (rows_at office i) (map line_of_row rows.now))) }
{
    let mut takings = takings;
    for at in 0..rows.len() {
        let row = row_at(rows, at);
        takings = put_line(alloc, routes, store, office, day, row, takings)?;
    }
    Ok(takings)
}

/// What is sought of the journal for the takings of an office on a day.
fn sought_on(office: OfficeNo, day: Day) -> Sought
    ensures { result ≡ sought_on office day }
{
    Sought {
        office: office.get(),
        loan: None,
        day: Some(day.number()),
    }
}

/// The takings of an office on a day, by the lines of a journal that begins here. It reads the lines that the index
/// finds.
fn taken_from<S: Alter>(
    alloc: Global,
    routes: &Routes,
    store: &mut Store<S>,
    begins: Head,
    office: OfficeNo,
    day: Day,
) -> Result<Listing<Taking>, Fault>
    ensures asks { AsksTables S.Store store.old store.new result }
    ensures value { IsClean S.Store store.new → (i : Institution) (lines : List JournalLine)
        → StandsFor S.Store store.old i → begins_of store.old.journal ≡ Some begins → i.journal ≡ Some lines
        → IfOk result (λ list. list ≡ takings_on office day i.catalogue (rows_at office i) lines) }
{
    let sought = sought_on(office, day);
    let mut number = narrow(begins.number)?;
    let mut takings = Vec::new(alloc);
    'pages: for _ in 0..u64::MAX {
        let next = store.next_rows(alloc, &sought, number)?;
        if next.rows.is_empty() {
            return Ok(Listing::new(takings));
        }
        let rows = lines_told(alloc, &next.rows)?;
        takings = put_lines(alloc, routes, store, office, day, &rows, takings)?;
        number = number_after(next.after, next.rows.len())?;
    }
    Err(Fault::F20)
}

/// The routes of the desk. The error is F20.
fn desk_routes(alloc: Global) -> Result<Routes, Fault>
    ensures gives_up { IfErr result (λ fault. fault ≡ F20) }
{
    match Routes::new(alloc) {
        Ok(routes) => Ok(routes),
        Err(_) => Err(Fault::F20),
    }
}

/// What was paid in and paid out at an office on a business day, by who sent the requests, or None where no journal is
/// kept. It reads the office's lines of that day.
pub fn takings_on<S: Alter>(
    alloc: Global,
    store: &mut Store<S>,
    office: OfficeNo,
    day: Day,
) -> Result<Option<Listing<Taking>>, Fault>
    ensures asks { MayAskTables S.Store store.old store.new result }
    ensures value { IsClean S.Store store.new → (i : Institution) → StandsFor S.Store store.old i
        → IfOk result (λ list. list ≡ takings_at office day i) }
{
    let Some(begins) = store.journal_begins() else {
        return Ok(None);
    };
    let routes = desk_routes(alloc)?;
    let takings = taken_from(alloc, &routes, store, begins, office, day)?;
    Ok(Some(takings))
}
