//! The loans of an institution, read once each and held.

ghost use Rattle.std.specs.Prelude.{◌≡◌, [], map, take, IfOk, IfErr, OnOk};
ghost use Rattle.mf_base.specs.declared.fault.Fault.TheVariants.{F20};
ghost use Rattle.mf_model.specs.Store.{rows_at};
ghost use Rattle.mf_ledger_play.specs.Due.{all_loans, numbered};
ghost use Rattle.mf_ledger_play.specs.Playing.{Holds, HoldsAt};

use mf_account::LoanAccount;
use mf_base::Fault;
use mf_model::InstitutionStore;
use mf_office::{Account, AccountNo, OfficeNo};
use std::alloc::Global;

/// A loan, the product on whose accounts it stands, and its account where it is disbursed.
#[derive(Drop)]
pub struct HeldLoan {
    pub loan: Account,
    pub product: u32,
    pub account: Option<LoanAccount>,
}

/// Reads a loan, and holds it behind the others. The error is F20.
fn hold_loan<S: InstitutionStore>(
    alloc: Global,
    store: &mut S,
    loan: &Account,
    held: &mut Vec<HeldLoan>,
) -> Result<(), Fault>
    ensures holds { OnOk result (HoldsAt S.InstitutionStore loan.now held.old.items held.new.items store.old
        store.new) }
    ensures gives_up { IfErr result (λ fault. fault ≡ F20) }
{
    match store.ledger(alloc, *loan) {
        Ok(Some((found, account))) => {
            held.push(HeldLoan {
                loan: *loan,
                product: found.product,
                account,
            })?;
            Ok(())
        }
        Ok(None) => Err(Fault::F20),
        Err(fault) => Err(fault),
    }
}

/// Reads the loans of an office, each once, and holds them behind the others. The error is F20.
pub fn hold_office<S: InstitutionStore>(
    alloc: Global,
    store: &mut S,
    office: OfficeNo,
    held: &mut Vec<HeldLoan>,
) -> Result<(), Fault>
    ensures holds { OnOk result (Holds S.InstitutionStore (λ i. numbered office 1 (rows_at office i).loans)
        held.old.items held.new.items store.old store.new) }
    ensures gives_up { IfErr result (λ fault. fault ≡ F20) }
{
    let counts = match store.next_numbers(alloc, office) {
        Ok(counts) => counts,
        Err(fault) => return Err(fault),
    };
    for place in 0..counts.loans {
        let Some(number) = AccountNo::new(place + 1) else {
            return Err(Fault::F20);
        };
        match hold_loan(alloc, store, &Account { office, number }, held) {
            Ok(()) => {}
            Err(fault) => return Err(fault),
        }
    }
    Ok(())
}

/// Reads all loans of an institution, each once, by office and number. The error is F20.
pub(crate) fn hold_loans<S: InstitutionStore>(
    alloc: Global,
    store: &mut S,
) -> Result<Vec<HeldLoan>, Fault>
    ensures holds { IfOk result (λ held. Holds S.InstitutionStore all_loans [] held.items store.old store.new) }
    ensures gives_up { IfErr result (λ fault. fault ≡ F20) }
{
    let Some(head) = OfficeNo::new(1) else {
        return Err(Fault::F20);
    };
    let offices = match store.offices(alloc, head) {
        Ok(offices) => offices,
        Err(fault) => return Err(fault),
    };
    let listed = offices.as_slice();
    let mut held = Vec::new(alloc);
    for place in 0..listed.len() {
        match hold_office(alloc, store, listed[place].number, &mut held) {
            Ok(()) => {}
            Err(fault) => return Err(fault),
        }
    }
    Ok(held)
}
