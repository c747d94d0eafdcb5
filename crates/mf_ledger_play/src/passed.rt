//! What the passing of days adds on an accrual basis: of each loan what falls due on each of them.

ghost use Rattle.std.specs.Prelude.{◌≡◌, ◌≤◌, ◌+◌, ◌-◌, ◌++◌, ℕ, List, map, IfOk, IfErr, IsTrue, OnOk, IsOkUnless};
ghost use Rattle.std.specs.List.{flat_map, range_with_len};
ghost use Rattle.mf_base.specs.declared.fault.Fault.TheVariants.{F20};
ghost use Rattle.mf_ledger_play.specs.Due.{held_of, loan_due};
ghost use Rattle.mf_ledger_play.specs.Playing.{AddsPassed};
ghost use Rattle.mf_ledger_play.specs.Told.{form_text, span_text};
ghost use Rattle.mf_model.specs.Institution.{Catalogue, Ledger};
ghost use Rattle.mf_office.specs.declared.account.Account as office;

use crate::form::{BooksAsked, put_postings};
use crate::held::{HeldLoan, hold_loans};
use mf_base::{Day, Fault, Freq};
use mf_ledger::{AccruedSums, Basis, Occasion, adjusting_postings};
use mf_model::InstitutionStore;
use std::alloc::Global;

/// The day of a number, which is so many weeks after one of the first seven. The error is F20.
fn day_numbered(number: u32) -> Result<Day, Fault>
    ensures day { IfOk result (λ day. day ≡ number) }
    ensures gives_up { IfErr result (λ fault. fault ≡ F20) }
{
    let mut text = *b"2000-01-01";
    text[9] = b'1' + (number % 7) as u8;
    let Some(start) = Day::parse(&text) else {
        return Err(Fault::F20);
    };
    if number > 36_524 {
        return Err(Fault::F20);
    }
    let day = start.after(Freq::Weeks, number / 7);
    if day.number() != number {
        return Err(Fault::F20);
    }
    Ok(day)
}

/// The days that a line passes, one after the other.
#[derive(Clone, Copy)]
struct Passing {
    /// The line's number, from 1.
    number: u64,
    /// The day before.
    before: Day,
    day: Day,
}

/// Writes what falls due of a loan on a day.
fn put_loan(
    alloc: Global,
    asked: &BooksAsked,
    passing: &Passing,
    held: &HeldLoan,
    text: &mut Vec<u8>,
) -> Result<(), Fault>
    ensures text { (k : Catalogue) (x : office.Account × Ledger) → passing.now.before ≡ passing.now.day - 1
        → held.now ≡ held_of k x → OnOk result (text.new.items ≡ text.old.items
        ++ form_text asked.now.form asked.now.names (loan_due passing.now.number passing.now.day k x)) }
    ensures only { IsOkUnless result Fault.F20 }
{
    let Passing {
        number,
        before,
        day,
    } = *passing;
    let occasion = Occasion {
        day,
        number,
        loan: Some(held.loan),
    };
    let first = AccruedSums::of(&held.account, before);
    let then = AccruedSums::of(&held.account, day);
    let added = adjusting_postings(held.loan.office, held.product, &first, &then);
    put_postings(alloc, asked, &occasion, &added, text)?;
    Ok(())
}

/// Writes what falls due of each loan on a day.
fn put_loans(
    alloc: Global,
    asked: &BooksAsked,
    passing: &Passing,
    held: &[HeldLoan],
    text: &mut Vec<u8>,
) -> Result<(), Fault>
    ensures text { (k : Catalogue) (xs : List (office.Account × Ledger)) → passing.now.before ≡ passing.now.day - 1
        → held.now ≡ map (held_of k) xs → OnOk result (text.new.items ≡ text.old.items
        ++ flat_map (form_text asked.now.form asked.now.names)
        (map (loan_due passing.now.number passing.now.day k) xs)) }
    ensures only { IsOkUnless result Fault.F20 }
{
    for place in 0..held.len() {
        put_loan(alloc, asked, passing, &held[place], text)?;
    }
    Ok(())
}

/// Writes what falls due of each loan on a day, if that is asked for.
fn put_day(
    alloc: Global,
    asked: &BooksAsked,
    passing: &Passing,
    held: &[HeldLoan],
    text: &mut Vec<u8>,
) -> Result<(), Fault>
    ensures text { (k : Catalogue) (xs : List (office.Account × Ledger)) → passing.now.before ≡ passing.now.day - 1
        → held.now ≡ map (held_of k) xs → OnOk result (text.new.items ≡ text.old.items
        ++ span_text asked.now (map (loan_due passing.now.number passing.now.day k) xs)) }
    ensures only { IsOkUnless result Fault.F20 }
{
    if asked.spans(passing.day) {
        put_loans(alloc, asked, passing, held, text)?;
    }
    Ok(())
}

/// Writes what falls due of each loan on the days behind a first one, up to a last one.
fn put_days(
    alloc: Global,
    asked: &BooksAsked,
    number: u64,
    since: Day,
    today: Day,
    held: &[HeldLoan],
    text: &mut Vec<u8>,
) -> Result<(), Fault>
    ensures text { (k : Catalogue) (xs : List (office.Account × Ledger)) → held.now ≡ map (held_of k) xs
        → OnOk result (text.new.items ≡ text.old.items ++ span_text asked.now
        (flat_map (λ day. map (loan_due number day k) xs) (range_with_len (since + 1) (today - since)))) }
    ensures gives_up { IfErr result (λ fault. fault ≡ F20) }
{
    let first = since.number();
    for passed in 0..today.number().saturating_sub(first) {
        let before = day_numbered(first + passed)?;
        let day = day_numbered(first + passed + 1)?;
        let passing = Passing {
            number,
            before,
            day,
        };
        put_day(alloc, asked, &passing, held, text)?;
    }
    Ok(())
}

/// Whether a day behind a first one, up to a last one, is asked for.
fn is_asked_between(asked: &BooksAsked, since: Day, today: Day) -> bool
    ensures every { (day : ℕ) → since + 1 ≤ day → day ≤ today → asked.now.first ≤ day → day ≤ asked.now.last
        → IsTrue result }
{
    since < today && asked.first <= today && since < asked.last
}

/// Writes what the days since a line came add to it, behind the text: on an accrual basis what falls due of each loan
/// on each of them that is asked for. Each loan is read once. The error is F20.
pub(crate) fn put_passed<S: InstitutionStore>(
    alloc: Global,
    store: &mut S,
    asked: &BooksAsked,
    number: u64,
    since: Day,
    text: &mut Vec<u8>,
) -> Result<(), Fault>
    ensures adds { OnOk result (AddsPassed S.InstitutionStore asked.now number since text.old.items text.new.items
        store.old store.new) }
    ensures gives_up { IfErr result (λ fault. fault ≡ F20) }
{
    match asked.basis {
        Basis::Cash => return Ok(()),
        Basis::Accrual => {}
    }
    let today = match store.business_day(alloc) {
        Ok(today) => today,
        Err(fault) => return Err(fault),
    };
    if !is_asked_between(asked, since, today) {
        return Ok(());
    }
    let held = hold_loans(alloc, store)?;
    put_days(alloc, asked, number, since, today, &held, text)?;
    Ok(())
}
