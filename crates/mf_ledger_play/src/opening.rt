//! The opening of books that begin with an institution as it stands: its balances, by office and product.

ghost use Rattle.std.specs.Prelude.{◌≡◌, ◌++◌, IfOk, IfErr, OnOk, IsOkUnless};
ghost use Rattle.std.specs.List.{flat_map, range_with_len};
ghost use Rattle.mf_base.specs.declared.fault.Fault.TheVariants.{F20};
ghost use Rattle.mf_ledger.specs.Adjusting.{adjusting_on, adjusting_opening, openings};
ghost use Rattle.mf_ledger.specs.Opening.{opening_on, opening_postings};
ghost use Rattle.mf_ledger.specs.Text.{opening_of};
ghost use Rattle.mf_model.specs.Institution.{Institution};
ghost use Rattle.mf_model.specs.Store.{rows_at};
ghost use Rattle.mf_ledger_play.specs.Opening.{moving, states_of, sums_with, accrued_with};
ghost use Rattle.mf_ledger_play.specs.Opening.{ReadsStates, ReadsOpening, OpensBooks};
ghost use Rattle.mf_ledger_play.specs.Told.{form_booked};

use crate::form::{BooksAsked, put_postings};
use crate::loans::{LoanState, loan_state};
use mf_base::{Day, Fault};
use mf_ledger::{
    AccruedSums, Basis, LoanSums, Occasion, Posting, opening_adjustments, opening_postings,
};
use mf_model::InstitutionStore;
use mf_office::{Account, AccountNo, OfficeNo};
use std::alloc::Global;

/// What books open with: the postings that move something.
#[derive(Drop)]
pub struct OpeningPostings {
    /// What stands on each account on a cash basis.
    pub cash: Vec<Posting>,
    /// What accrual adds to that.
    pub added: Vec<Posting>,
}

/// Puts the postings that move something behind the others. The error is F20.
fn push_moving(postings: &[Posting], moved: &mut Vec<Posting>) -> Result<(), Fault>
    ensures moved { OnOk result (moved.new.items ≡ moved.old.items ++ moving postings.now) }
    ensures only { IsOkUnless result Fault.F20 }
{
    for posting in postings {
        if posting.amount != 0 {
            moved.push(*posting)?;
        }
    }
    Ok(())
}

/// What the books read of those loans that are of a product. The error is F20.
fn of_product(
    alloc: Global,
    product: u32,
    states: &[LoanState],
) -> Result<(Vec<LoanSums>, Vec<AccruedSums>), Fault>
    ensures sums { IfOk result (λ read. read.0.items
        ≡ sums_with product states.now) }
    ensures accrued { IfOk result (λ read. read.1.items
        ≡ accrued_with product states.now) }
    ensures only { IsOkUnless result Fault.F20 }
{
    let mut sums = Vec::new(alloc);
    let mut accrued = Vec::new(alloc);
    for state in states {
        if state.product == product {
            sums.push(state.sums)?;
            accrued.push(state.accrued)?;
        }
    }
    Ok((sums, accrued))
}

/// Puts what the books open with for the loans of one office and product behind the others. The error is F20.
fn open_product(
    alloc: Global,
    office: OfficeNo,
    product: u32,
    states: &[LoanState],
    opening: &mut OpeningPostings,
) -> Result<(), Fault>
    ensures cash { OnOk result (opening.new.cash.items ≡ opening.old.cash.items
        ++ moving (opening_on office product (sums_with product states.now))) }
    ensures added { OnOk result (opening.new.added.items ≡ opening.old.added.items
        ++ moving (adjusting_on office product (accrued_with product states.now))) }
    ensures only { IsOkUnless result Fault.F20 }
{
    let (sums, accrued) = of_product(alloc, product, states)?;
    push_moving(&opening_postings(office, product, &sums), &mut opening.cash)?;
    push_moving(
        &opening_adjustments(office, product, &accrued),
        &mut opening.added,
    )?;
    Ok(())
}

/// Puts what the books open with for the loans of one office, of so many products, behind the others. The error is F20.
fn open_products(
    alloc: Global,
    office: OfficeNo,
    products: u32,
    states: &[LoanState],
    opening: &mut OpeningPostings,
) -> Result<(), Fault>
    ensures cash { OnOk result (opening.new.cash.items ≡ opening.old.cash.items
        ++ moving (flat_map (λ product. opening_on office product (sums_with product states.now))
        (range_with_len 1 products))) }
    ensures added { OnOk result (opening.new.added.items ≡ opening.old.added.items
        ++ moving (flat_map (λ product. adjusting_on office product (accrued_with product states.now))
        (range_with_len 1 products))) }
    ensures only { IsOkUnless result Fault.F20 }
{
    for place in 0..products {
        open_product(alloc, office, place + 1, states, opening)?;
    }
    Ok(())
}

/// What the books read of the loans of an office at the end of a day, each read once. The error is F20.
fn office_states<S: InstitutionStore>(
    alloc: Global,
    store: &mut S,
    office: OfficeNo,
    day: Day,
) -> Result<Vec<LoanState>, Fault>
    ensures read { IfOk result (λ read. ReadsStates S.InstitutionStore
        (λ i. states_of day i.catalogue (rows_at office i).loans) read.items store.old store.new) }
    ensures gives_up { IfErr result (λ fault. fault ≡ F20) }
{
    let counts = match store.next_numbers(alloc, office) {
        Ok(counts) => counts,
        Err(fault) => return Err(fault),
    };
    let mut states = Vec::new(alloc);
    for place in 0..counts.loans {
        let Some(number) = AccountNo::new(place + 1) else {
            return Err(Fault::F20);
        };
        match loan_state(alloc, store, Account { office, number }, day) {
            Ok(state) => states.push(state)?,
            Err(fault) => return Err(fault),
        }
    }
    Ok(states)
}

/// What the books of an institution open with at the end of a day. Each loan is read once. The error is F20.
fn opening_at<S: InstitutionStore>(
    alloc: Global,
    store: &mut S,
    day: Day,
) -> Result<OpeningPostings, Fault>
    ensures reads { IfOk result (λ opening. ReadsOpening S.InstitutionStore day opening store.old store.new) }
    ensures gives_up { IfErr result (λ fault. fault ≡ F20) }
{
    let Some(head) = OfficeNo::new(1) else {
        return Err(Fault::F20);
    };
    let counts = match store.catalogue_counts(alloc) {
        Ok(counts) => counts,
        Err(fault) => return Err(fault),
    };
    let offices = match store.offices(alloc, head) {
        Ok(offices) => offices,
        Err(fault) => return Err(fault),
    };
    let listed = offices.as_slice();
    let mut opening = OpeningPostings {
        cash: Vec::new(alloc),
        added: Vec::new(alloc),
    };
    for place in 0..listed.len() {
        let office = listed[place].number;
        let states = match office_states(alloc, store, office, day) {
            Ok(states) => states,
            Err(fault) => return Err(fault),
        };
        open_products(alloc, office, counts.products, &states, &mut opening)?;
    }
    Ok(opening)
}

/// Writes the opening transactions of a day.
fn put_opening(
    alloc: Global,
    asked: &BooksAsked,
    day: Day,
    opening: &OpeningPostings,
    text: &mut Vec<u8>,
) -> Result<(), Fault>
    ensures text { (i : Institution) → day ≡ i.catalogue.day → opening.now.cash.items ≡ moving (opening_postings i)
        → opening.now.added.items ≡ moving (adjusting_opening day i) → OnOk result (text.new.items ≡ text.old.items
        ++ flat_map (form_booked asked.now.form asked.now.names (opening_of day)) (openings asked.now.basis i)) }
    ensures only { IsOkUnless result Fault.F20 }
{
    let occasion = Occasion::opening(day);
    put_postings(alloc, asked, &occasion, &opening.cash, text)?;
    match asked.basis {
        Basis::Cash => {}
        Basis::Accrual => put_postings(alloc, asked, &occasion, &opening.added, text)?,
    }
    Ok(())
}

/// Writes the opening of books that begin with the institution for which a store stands, behind the text: what stands
/// on each account, dated with its business day, where that is a day of the span that is asked for; on an accrual basis
/// what accrual adds by then comes behind it. Each loan is read once. The error is F20.
pub fn book_opening<S: InstitutionStore>(
    alloc: Global,
    store: &mut S,
    asked: &BooksAsked,
    text: &mut Vec<u8>,
) -> Result<(), Fault>
    ensures opens { OnOk result (OpensBooks S.InstitutionStore asked.now text.old.items text.new.items store.old
        store.new) }
    ensures gives_up { IfErr result (λ fault. fault ≡ F20) }
{
    let day = match store.business_day(alloc) {
        Ok(day) => day,
        Err(fault) => return Err(fault),
    };
    if !asked.spans(day) {
        return Ok(());
    }
    let opening = match opening_at(alloc, store, day) {
        Ok(opening) => opening,
        Err(fault) => return Err(fault),
    };
    put_opening(alloc, asked, day, &opening, text)?;
    Ok(())
}
