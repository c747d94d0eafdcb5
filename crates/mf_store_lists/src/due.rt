//! What is due of the loans of an office.

ghost use Rattle.std.specs.Prelude.{◌≡◌, ◌++◌, ◌+◌, ◌≤◌, ◌<◌, ◌⊎◌, [], ℕ, List, length, map, take, Some, IfOk, IfErr};
ghost use Rattle.std.specs.Prelude.{OnOk, IsTrue};
ghost use Rattle.std.specs.List.{AllByRecursion, enumerate_from, flat_map, list_any};
ghost use Rattle.mf_base.specs.declared.fault.Fault.TheVariants.{F20};
ghost use Rattle.mf_alloc.specs.Rows.{place_in_row};
ghost use Rattle.mf_arrears.specs.Ageing.{earliest_due};
ghost use Rattle.mf_lists.specs.Lists.{due_after, due_line, is_due, last_entry, rows_in};
ghost use Rattle.mf_model.specs.Institution.{Institution, Ledger};
ghost use Rattle.mf_model.specs.Store.{ledger_at, rows_at};
ghost use Rattle.mf_store.specs.Stands.{StandsFor, IsClean, IsOpen, AsksTables, MayAskTables};
ghost use Rattle.mf_store_lists.specs.Due.{due_of_row, due_told, is_row_due, portion_of, portions_of};
ghost use Rattle.mf_store_lists.specs.Told.{told_if};
ghost use Rattle.mf_store_schema.specs.Rows.{loan_row};
ghost use Rattle.mf_store_values.specs.Flat.{loan_in};

use crate::loans::{account_number, instalments_of, left_of, name_of, sum_of};
use mf_account::Entry;
use mf_alloc::{Instalment, Portion};
use mf_arrears::earlier;
use mf_base::{Day, Fault};
use mf_lists::{DueLine, LastEntry};
use mf_model::Loan;
use mf_office::{Account, OfficeNo};
use mf_statement::Listing;
use mf_store::Store;
use mf_store_schema::LoanRow;
use mf_store_values::{loan_in_row, or_give_up};
use sqlite::{Alter, Row};
use std::alloc::Global;

/// Whether something is due of an instalment by a day and outstanding.
fn is_row_due(row: &Instalment, day: Day) -> bool
    ensures { result ≡ is_row_due day row.now }
{
    row.is_open() && row.due <= day
}

/// Whether something is due of instalments by a day and outstanding.
fn is_due(rows: &[Instalment], day: Day) -> bool
    ensures { result ≡ list_any (is_row_due day) rows.now }
{
    rows.iter().any(|row| is_row_due(row, day))
}

/// The earliest due day of an instalment with something outstanding.
fn earliest_due(rows: &[Instalment]) -> Option<Day>
    ensures { result ≡ earliest_due rows.now }
{
    rows.iter()
        .filter(|row| row.is_open())
        .map(|row| row.due)
        .fold(None, |day: Option<Day>, due| earlier(day, due))
}

/// What is due of a portion of an instalment by a day, and outstanding.
fn due_of_row(row: &Instalment, day: Day, portion: Portion) -> u64
    ensures { result ≡ due_of_row (place_in_row portion) day row.now }
{
    if row.due <= day {
        row.outstanding(portion)
    } else {
        0
    }
}

/// What is due of a portion of instalments by a day, and outstanding.
fn portion_of(rows: &[Instalment], day: Day, portion: Portion) -> Result<u64, Fault>
    ensures due { IfOk result (λ due. due ≡ portion_of (place_in_row portion) day rows.now) }
    ensures gives_up { IfErr result (λ fault. fault ≡ F20) }
{
    let mut due = 0;
    for row in rows {
        due = sum_of(due, due_of_row(row, day, portion))?;
    }
    Ok(due)
}

/// What is due of instalments by a day, and outstanding: penalties, fees, interest and principal.
fn portions_of(rows: &[Instalment], day: Day) -> Result<[u64; 4], Fault>
    ensures due { IfOk result (λ due. due ≡ portions_of day rows.now) }
    ensures gives_up { IfErr result (λ fault. fault ≡ F20) }
{
    let penalties = portion_of(rows, day, Portion::Penalty)?;
    let fees = portion_of(rows, day, Portion::Fee)?;
    let interest = portion_of(rows, day, Portion::Interest)?;
    let principal = portion_of(rows, day, Portion::Principal)?;
    Ok([penalties, fees, interest, principal])
}

/// The last entry that counts.
fn last_entry(entries: &[Entry]) -> Option<LastEntry>
    ensures { result ≡ last_entry entries.now }
{
    let mut last = None;
    for entry in entries {
        if !entry.reversed {
            last = Some(LastEntry {
                seq: entry.seq,
                day: entry.day,
            });
        }
    }
    last
}

/// The line of a loan that is there and has these instalments, of which something is outstanding.
fn line_of<S: Alter>(
    alloc: Global,
    store: &mut Store<S>,
    account: Account,
    loan: &Loan,
    rows: &[Instalment],
    day: Day,
) -> Result<DueLine, Fault>
    ensures asks { MayAskTables S.Store store.old store.new result }
    ensures value { IsClean S.Store store.new → (i : Institution) → StandsFor S.Store store.old i → (l : Ledger)
        → ledger_at account i ≡ Some l → l.loan ≡ loan.now → rows.now ≡ rows_in i.catalogue l
        → IfOk result (λ line. line ≡ due_line day i.catalogue (rows_at account.office i) (account.number, l)) }
{
    let Account { office, number } = account;
    let oldest = or_give_up(earliest_due(rows))?;
    let due = portions_of(rows, day)?;
    let left = left_of(rows)?;
    let name = name_of(alloc, store, office, loan.client)?;
    let entries = store.entries_at(alloc, Account { office, number })?;
    Ok(DueLine {
        loan: number,
        client: loan.client,
        name,
        oldest,
        due,
        left,
        last: last_entry(&entries),
    })
}

/// Adds the line of a loan that is there, where something of it is due by a day and outstanding.
fn put_loan<S: Alter>(
    alloc: Global,
    store: &mut Store<S>,
    account: Account,
    loan: &Loan,
    day: Day,
    lines: &mut Vec<DueLine>,
) -> Result<(), Fault>
    ensures asks { MayAskTables S.Store store.old store.new result }
    ensures one { length lines.new.items ≤ length lines.old.items + 1 }
    ensures added { IsClean S.Store store.new → (i : Institution) → StandsFor S.Store store.old i → (l : Ledger)
        → ledger_at account i ≡ Some l → l.loan ≡ loan.now
        → OnOk result (lines.new.items ≡ lines.old.items ++ told_if (is_due day i.catalogue l)
        (due_line day i.catalogue (rows_at account.office i) (account.number, l))) }
{
    let Account { office, number } = account;
    let rows = instalments_of(alloc, store, Account { office, number }, loan)?;
    if !is_due(&rows, day) {
        return Ok(());
    }
    let line = line_of(alloc, store, Account { office, number }, loan, &rows, day)?;
    lines.push(line)?;
    Ok(())
}

/// Adds the line of a row's loan, where its number is above one and something of it is due by a day and outstanding.
fn put_line<S: Alter>(
    alloc: Global,
    store: &mut Store<S>,
    row: &Row,
    day: Day,
    after: u32,
    lines: &mut Vec<DueLine>,
) -> Result<(), Fault>
    ensures asks { MayAskTables S.Store store.old store.new result }
    ensures one { length lines.new.items ≤ length lines.old.items + 1 }
    ensures added { IsClean S.Store store.new → (i : Institution) → StandsFor S.Store store.old i
        → (office : ℕ) (l : ℕ × Ledger) → row.now ≡ loan_row (loan_in office l.0 l.1.loan)
        → ledger_at (record { office = office; number = l.0 }) i ≡ Some l.1
        → OnOk result (lines.new.items ≡ lines.old.items ++ due_told day after i.catalogue (rows_at office i) l) }
{
    let (account, loan) = loan_in_row(row)?;
    let Account { office, number } = account;
    if number.get() <= after {
        return Ok(());
    }
    put_loan(alloc, store, Account { office, number }, &loan, day, lines)?;
    Ok(())
}

/// Adds the line of the loan under a number, which is there, where something of it is due by a day and outstanding.
fn put_numbered<S: Alter>(
    alloc: Global,
    store: &mut Store<S>,
    office: OfficeNo,
    number: u32,
    day: Day,
    lines: &mut Vec<DueLine>,
) -> Result<(), Fault>
    ensures asks { AsksTables S.Store store.old store.new result }
    ensures one { length lines.new.items ≤ length lines.old.items + 1 }
    ensures added { IsClean S.Store store.new → (i : Institution) → StandsFor S.Store store.old i → (l : Ledger)
        → ledger_at (record { office = office; number = number }) i ≡ Some l
        → OnOk result (lines.new.items ≡ lines.old.items ++ told_if (is_due day i.catalogue l)
        (due_line day i.catalogue (rows_at office i) (number, l))) }
{
    let number = account_number(number)?;
    let found = store.loan(Account { office, number })?;
    let loan = or_give_up(found)?;
    put_loan(alloc, store, Account { office, number }, &loan, day, lines)?;
    Ok(())
}

/// The most loans that are told at once.
const PAGE: usize = 200;

/// Adds the lines of loans behind one to none, of each that has something due by a day and outstanding, by number up to
/// a last one or until as many are told as may be. Each loan is looked up by its number. It answers up to which one.
fn put_near<S: Alter>(
    alloc: Global,
    store: &mut Store<S>,
    office: OfficeNo,
    day: Day,
    after: u32,
    last: u32,
    lines: &mut Vec<DueLine>,
) -> Result<u32, Fault>
    ensures asks { MayAskTables S.Store store.old store.new result }
    ensures asked { IsClean S.Store store.new → IfOk result (λ reached. after < reached → IsOpen S.Store store.new) }
    ensures few { length lines.old.items ≤ 200 → length lines.new.items ≤ 200 }
    ensures value { IsClean S.Store store.new → (i : Institution) → StandsFor S.Store store.old i
        → last ≤ length (rows_at office i).loans → lines.old.items ≡ []
        → IfOk result (λ reached. lines.new.items ≡ flat_map (due_told day after i.catalogue (rows_at office i))
        (take reached (enumerate_from 1 (rows_at office i).loans))) }
{
    let mut reached = after;
    while reached < last {
        if lines.len() >= PAGE {
            return Ok(reached);
        }
        put_numbered(alloc, store, office, reached + 1, day, lines)?;
        reached += 1;
    }
    Ok(reached)
}

/// Adds the lines of the rows' loans from a place on that have a number above one and of which something is due by a
/// day and outstanding, until as many are told as may be. Those of the rows before it are told.
fn put_rows<S: Alter>(
    alloc: Global,
    store: &mut Store<S>,
    rows: &[Row],
    from: u32,
    day: Day,
    after: u32,
    lines: &mut Vec<DueLine>,
) -> Result<(), Fault>
    ensures asks { MayAskTables S.Store store.old store.new result }
    ensures value { IsClean S.Store store.new → (i : Institution) → StandsFor S.Store store.old i
        → (office : ℕ) (ls : List (ℕ × Ledger))
        → AllByRecursion (λ l. ledger_at (record { office = office; number = l.0 }) i ≡ Some l.1) ls
        → rows.now ≡ map (λ l. loan_row (loan_in office l.0 l.1.loan)) ls → length lines.old.items ≤ 200
        → lines.old.items ≡ flat_map (due_told day after i.catalogue (rows_at office i)) (take from ls)
        → OnOk result (lines.new.items ≡ take 200 (flat_map (due_told day after i.catalogue (rows_at office i))
        ls)) }
{
    for place in from as usize..rows.len() {
        if lines.len() >= PAGE {
            return Ok(());
        }
        put_line(alloc, store, &rows[place], day, after, lines)?;
    }
    Ok(())
}

/// The most loans of an office whose rows are read all at once where few of them are asked for.
const FEW: u32 = 1_000;

/// The most numbers behind one that are looked up each for itself.
const NEAR: u32 = 400;

/// The last number behind one that is looked up for itself, in an office of so many loans; 0 where these are few. One
/// row of a list takes a third of what the same row takes that is looked up.
fn last_near(loans: u32, after: u32) -> u32
    ensures { result ≤ loans }
{
    let last = after.saturating_add(NEAR);
    if loans <= FEW {
        0
    } else if last < loans {
        last
    } else {
        loans
    }
}

/// Whether all is told, of an office of so many loans, once those up to a number were looked up, and so many were told.
fn is_whole(after: u32, reached: u32, loans: u32, told: usize) -> bool
    ensures { IsTrue result → (after < reached) × ((loans ≤ reached) ⊎ (200 ≤ told)) }
{
    after < reached && (loans <= reached || told >= PAGE)
}

/// The first 200 active loans of an office whose number is above one and of which something is due by a day and
/// outstanding, by number. Where the office has more than 1,000 loans it looks up to 400 of them up by their numbers,
/// and reads the rows of all its loans only if these don't make a page. Of each that is disbursed it reads the
/// instalments, up to the last that it tells.
pub fn due_after<S: Alter>(
    alloc: Global,
    store: &mut Store<S>,
    office: OfficeNo,
    day: Day,
    after: u32,
) -> Result<Listing<DueLine>, Fault>
    ensures asks { AsksTables S.Store store.old store.new result }
    ensures value { IsClean S.Store store.new → (i : Institution) → StandsFor S.Store store.old i
        → IfOk result (λ list. list ≡ due_after day after i.catalogue (rows_at office i)) }
{
    let counts = store.next_numbers(office)?;
    let last = last_near(counts.loans, after);
    let mut lines = Vec::new(alloc);
    let reached = put_near(alloc, store, office, day, after, last, &mut lines)?;
    if is_whole(after, reached, counts.loans, lines.len()) {
        return Ok(Listing::new(lines));
    }
    let rows = store.list::<LoanRow>(office.get())?;
    put_rows(alloc, store, &rows, reached, day, after, &mut lines)?;
    Ok(Listing::new(lines))
}
