//! The lines by portion of the institution that a store stands for.

ghost use Rattle.std.specs.Prelude.{◌≡◌, ◌++◌, ℕ, List, map, IfOk, IfErr, OnOk};
ghost use Rattle.std.specs.List.{range_with_len};
ghost use Rattle.mf_base.specs.declared.fault.Fault.TheVariants.{F20};
ghost use Rattle.mf_ledger_play.specs.Due.{held_of, numbered};
ghost use Rattle.mf_model.specs.Institution.{Catalogue, Ledger};
ghost use Rattle.mf_portions.specs.Portions.{lines_of, lines_of_some, portion_lines};
ghost use Rattle.mf_portions_play.specs.Reading.{PutsOffice, Tells, held_balances, kept_balances, portions_text};

use mf_account::{Balances, LoanAccount};
use mf_base::Fault;
use mf_ledger_play::{HeldLoan, hold_office};
use mf_model::InstitutionStore;
use mf_office::OfficeNo;
use mf_portions::{PortionLine, portion_lines, table_text};
use std::alloc::Global;

/// The sums of a loan, from its account, where it is disbursed.
fn balances_of(account: &Option<LoanAccount>) -> Balances
    ensures { result ≡ kept_balances account.now }
{
    match account {
        None => Balances {
            disbursement_fee: 0,
            owed: [0; 4],
            paid: [0; 4],
            waived: [0; 4],
            written_off: [0; 4],
            outstanding: [0; 4],
            overpaid: 0,
            refunded: 0,
        },
        Some(account) => account.balances(),
    }
}

/// The sums of those of the loans that are of a product. The error is F20.
fn sums_of_product(alloc: Global, held: &[HeldLoan], product: u32) -> Result<Vec<Balances>, Fault>
    ensures sums { IfOk result (λ loans. loans.items ≡ held_balances product held.now) }
    ensures gives_up { IfErr result (λ fault. fault ≡ F20) }
{
    let mut loans = Vec::new(alloc);
    for loan in held {
        if loan.product == product {
            loans.push(balances_of(&loan.account))?;
        }
    }
    Ok(loans)
}

/// Writes the lines of loans of one office and product behind the others; none where there is no loan.
fn put_product(
    office: OfficeNo,
    product: u32,
    loans: &[Balances],
    lines: &mut Vec<PortionLine>,
) -> Result<(), Fault>
    ensures lines { OnOk result (lines.new.items ≡ lines.old.items ++ lines_of_some office product loans.now) }
    ensures gives_up { IfErr result (λ fault. fault ≡ F20) }
{
    if loans.is_empty() {
        return Ok(());
    }
    let five = portion_lines(office, product, loans);
    lines.extend_from_slice(&five)?;
    Ok(())
}

/// Writes the lines of an office's loans behind the others, product by product. The error is F20.
fn put_products(
    alloc: Global,
    office: OfficeNo,
    products: u32,
    held: &[HeldLoan],
    lines: &mut Vec<PortionLine>,
) -> Result<(), Fault>
    ensures lines { (k : Catalogue) (m : ℕ) (ls : List Ledger) → held.now ≡ map (held_of k) (numbered office m ls)
        → OnOk result (lines.new.items ≡ lines.old.items ++ lines_of k office ls (range_with_len 1 products)) }
    ensures gives_up { IfErr result (λ fault. fault ≡ F20) }
{
    for place in 0..products {
        let loans = sums_of_product(alloc, held, place + 1)?;
        put_product(office, place + 1, &loans, lines)?;
    }
    Ok(())
}

/// Reads the loans of an office, and writes its lines behind the others. The error is F20.
fn put_office<S: InstitutionStore>(
    alloc: Global,
    store: &mut S,
    office: OfficeNo,
    products: u32,
    lines: &mut Vec<PortionLine>,
) -> Result<(), Fault>
    ensures puts { OnOk result (PutsOffice S.InstitutionStore office products lines.old.items lines.new.items
        store.old store.new) }
    ensures gives_up { IfErr result (λ fault. fault ≡ F20) }
{
    let mut held = Vec::new(alloc);
    match hold_office(alloc, store, office, &mut held) {
        Ok(()) => put_products(alloc, office, products, &held, lines),
        Err(fault) => Err(fault),
    }
}

/// Reads the lines by portion of the institution that a store stands for, office by office; the loans of one office are
/// held at a time. The error is F20.
pub fn read_portions<S: InstitutionStore>(
    alloc: Global,
    store: &mut S,
) -> Result<Vec<PortionLine>, Fault>
    ensures tells { IfOk result (λ lines. Tells S.InstitutionStore portion_lines lines.items store.old store.new) }
    ensures gives_up { IfErr result (λ fault. fault ≡ F20) }
{
    let Some(head) = OfficeNo::new(1) else {
        return Err(Fault::F20);
    };
    let counts = match store.catalogue_counts(alloc) {
        Ok(counts) => counts,
        Err(fault) => return Err(fault),
    };
    let offices = match store.offices(alloc, head) {
        Ok(offices) => offices,
        Err(fault) => return Err(fault),
    };
    let listed = offices.as_slice();
    let mut lines = Vec::new(alloc);
    for place in 0..listed.len() {
        let office = listed[place].number;
        match put_office(alloc, store, office, counts.products, &mut lines) {
            Ok(()) => {}
            Err(fault) => return Err(fault),
        }
    }
    Ok(lines)
}

/// The table of what the institution that a store stands for comes to by portion, office and product, as
/// comma-separated values. The error is F20.
pub fn write_portions<S: InstitutionStore>(alloc: Global, store: &mut S) -> Result<Vec<u8>, Fault>
    ensures tells { IfOk result (λ text. Tells S.InstitutionStore portions_text text.items store.old store.new) }
    ensures gives_up { IfErr result (λ fault. fault ≡ F20) }
{
    match read_portions(alloc, store) {
        Ok(lines) => table_text(alloc, &[], &lines),
        Err(fault) => Err(fault),
    }
}
