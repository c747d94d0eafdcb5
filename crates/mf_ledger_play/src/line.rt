//! A line of a journal, played, and its transactions written.

ghost use Rattle.std.specs.Prelude.{◌≡◌, ◌+◌, ◌++◌, ℕ, IfOk, IfErr, OnOk, IsOkUnless};
ghost use Rattle.std.specs.List.{flat_map};
ghost use Rattle.mf_base.specs.declared.fault.Fault as fault;
ghost use Rattle.mf_base.specs.declared.fault.Fault.TheVariants.{F20};
ghost use Rattle.mf_journal.specs.Chain.{line_of_row};
ghost use Rattle.mf_ledger_play.specs.Playing.{BooksLine, MovesLine, OwnLine};
ghost use Rattle.mf_ledger_play.specs.Told.{form_text, moved};

use crate::form::{BooksAsked, put_postings};
use crate::loans::{LoanState, loan_state, loan_told};
use crate::passed::put_passed;
use mf_base::{Day, Fault};
use mf_journal::JournalRow;
use mf_ledger::{Basis, Occasion, adjusting_postings, postings};
use mf_model::InstitutionStore;
use mf_office::Account;
use mf_play::{Stop, play_line};
use mf_wire_requests::Routes;
use std::alloc::Global;

/// What the transactions of a line on a loan are of.
#[derive(Clone, Copy)]
pub(crate) struct Booking {
    /// The line's number, from 1.
    pub number: u64,
    pub day: Day,
    pub loan: Account,
}

/// What the books read of a loan before a line and after it.
#[derive(Clone, Copy)]
pub(crate) struct LoanMoved {
    pub before: LoanState,
    pub after: LoanState,
}

/// Writes the transactions of a line on a loan: what moved on a cash basis, and what an accrual basis adds.
fn put_moved(
    alloc: Global,
    asked: &BooksAsked,
    booking: &Booking,
    change: &LoanMoved,
    text: &mut Vec<u8>,
) -> Result<(), Fault>
    ensures text { OnOk result (text.new.items ≡ text.old.items
        ++ flat_map (form_text asked.now.form asked.now.names) (moved asked.now.basis booking.now change.now)) }
    ensures only { IsOkUnless result Fault.F20 }
{
    let occasion = Occasion {
        day: booking.day,
        number: booking.number,
        loan: Some(booking.loan),
    };
    let (office, before, after) = (booking.loan.office, &change.before, &change.after);
    let cash = postings(office, before.product, &before.sums, &after.sums);
    put_postings(alloc, asked, &occasion, &cash, text)?;
    match asked.basis {
        Basis::Cash => {}
        Basis::Accrual => {
            let added = adjusting_postings(office, before.product, &before.accrued, &after.accrued);
            put_postings(alloc, asked, &occasion, &added, text)?;
        }
    }
    Ok(())
}

/// Plays a line whose request is on a loan, and says what the books read of it before and after. The error is F20.
fn book_loan<S: InstitutionStore>(
    alloc: Global,
    routes: &Routes,
    store: &mut S,
    booking: &Booking,
    row: JournalRow<'_>,
) -> Result<Result<LoanMoved, Stop>, Fault>
    ensures moves { IfOk result (MovesLine S.InstitutionStore booking.now (line_of_row row.entry) store.old store.new) }
    ensures gives_up { IfErr result (λ fault. fault ≡ F20) }
{
    let before = loan_state(alloc, store, booking.loan, booking.day)?;
    match play_line(alloc, routes, store, row) {
        Ok(Ok(())) => {}
        Ok(Err(why)) => return Ok(Err(why)),
        Err(fault) => return Err(fault),
    }
    let after = loan_state(alloc, store, booking.loan, booking.day)?;
    Ok(Ok(LoanMoved { before, after }))
}

/// Plays the line of this number, which comes on this business day, and writes the transactions of its request behind
/// the text, where it has some on a day that is asked for. The error is F20.
fn book_own<S: InstitutionStore>(
    alloc: Global,
    routes: &Routes,
    store: &mut S,
    asked: &BooksAsked,
    number: u64,
    day: Day,
    row: JournalRow<'_>,
    text: &mut Vec<u8>,
) -> Result<Result<(), Stop>, Fault>
    ensures books { IfOk result (OwnLine S.InstitutionStore asked.now number day (line_of_row row.entry)
        text.old.items text.new.items store.old store.new) }
    ensures gives_up { IfErr result (λ fault. fault ≡ F20) }
{
    if !asked.spans(day) {
        return play_line(alloc, routes, store, row);
    }
    let Some(loan) = loan_told(alloc, routes, row)? else {
        return play_line(alloc, routes, store, row);
    };
    let booking = Booking { number, day, loan };
    match book_loan(alloc, routes, store, &booking, row) {
        Ok(Ok(change)) => {
            put_moved(alloc, asked, &booking, &change, text)?;
            Ok(Ok(()))
        }
        Ok(Err(why)) => Ok(Err(why)),
        Err(fault) => Err(fault),
    }
}

/// Plays the line of this number, and writes its transactions behind the text: those of its request, and on an accrual
/// basis what falls due on the days by which it moves the business day. The error is F20.
pub(crate) fn book_line<S: InstitutionStore>(
    alloc: Global,
    routes: &Routes,
    store: &mut S,
    asked: &BooksAsked,
    number: u64,
    row: JournalRow<'_>,
    text: &mut Vec<u8>,
) -> Result<Result<(), Stop>, Fault>
    ensures books { (n : ℕ) → number ≡ n + 1 → IfOk result (BooksLine S.InstitutionStore asked.now n
        (line_of_row row.entry) text.old.items text.new.items store.old store.new) }
    ensures gives_up { IfErr result (λ fault. fault ≡ F20) }
{
    let day = match store.business_day(alloc) {
        Ok(day) => day,
        Err(fault) => return Err(fault),
    };
    match book_own(alloc, routes, store, asked, number, day, row, text) {
        Ok(Ok(())) => {}
        Ok(Err(why)) => return Ok(Err(why)),
        Err(fault) => return Err(fault),
    }
    match put_passed(alloc, store, asked, number, day, text) {
        Ok(()) => Ok(Ok(())),
        Err(fault) => Err(fault),
    }
}
