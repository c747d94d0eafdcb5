//! What the books read of the loan that a line's request is on.

ghost use Rattle.std.specs.Prelude.{◌≡◌, IfOk, IfErr};
ghost use Rattle.mf_base.specs.declared.fault.Fault.TheVariants.{F20};
ghost use Rattle.mf_journal.specs.Chain.{line_of_row};
ghost use Rattle.mf_model.specs.Accounts.{no_balances};
ghost use Rattle.mf_model.specs.Institution.{Institution};
ghost use Rattle.mf_model.specs.Sound.{IsSound};
ghost use Rattle.mf_model.specs.Store.{Reads, loan_with_account_at};
ghost use Rattle.mf_office.specs.declared.account.Account as office;
ghost use Rattle.mf_ledger_play.specs.Told.{loan_named, loan_told, state_at};

use mf_account::{Balances, LoanAccount};
use mf_base::{Day, Fault};
use mf_journal::JournalRow;
use mf_ledger::{AccruedSums, LoanSums};
use mf_model::{InstitutionStore, Loan, Request};
use mf_office::Account;
use mf_wire_requests::{Routes, read_request};
use std::alloc::Global;

/// What the books read of a loan at the end of a day, and the product on whose accounts it stands.
#[derive(Clone, Copy)]
pub struct LoanState {
    pub product: u32,
    pub sums: LoanSums,
    /// What accrual adds to these.
    pub accrued: AccruedSums,
}

/// The loan that a request is on.
fn loan_named(request: &Request) -> Option<Account>
    ensures { result ≡ loan_named request.now }
{
    match request {
        Request::Loan { loan, asked: _ } => Some(*loan),
        _ => None,
    }
}

/// The loan that the request of a row is on; none where it is on none, or the row tells no request. The error is F20.
pub(crate) fn loan_told(
    alloc: Global,
    routes: &Routes,
    row: JournalRow<'_>,
) -> Result<Option<Account>, Fault>
    ensures loan { IfOk result (λ loan. loan ≡ loan_told (line_of_row row.entry)) }
    ensures gives_up { IfErr result (λ fault. fault ≡ F20) }
{
    match read_request(alloc, routes, row.method, row.path, row.body) {
        Ok(request) => Ok(loan_named(&request)),
        Err(Fault::F20) => Err(Fault::F20),
        Err(_) => Ok(None),
    }
}

/// The sums of a loan that has none.
fn no_balances() -> Balances
    ensures { result ≡ no_balances }
{
    Balances {
        disbursement_fee: 0,
        owed: [0; 4],
        paid: [0; 4],
        waived: [0; 4],
        written_off: [0; 4],
        outstanding: [0; 4],
        overpaid: 0,
        refunded: 0,
    }
}

/// What the books read of a loan that was found, or wasn't.
fn state_of(found: &Option<(Loan, Option<LoanAccount>)>, day: Day) -> LoanState
    ensures { (loan : office.Account) (i : Institution) → IsSound i → found.now ≡ loan_with_account_at loan i
        → result ≡ state_at day loan i }
{
    match found {
        None => LoanState {
            product: 0,
            sums: LoanSums {
                lent: 0,
                repaid: 0,
                balances: no_balances(),
            },
            accrued: AccruedSums {
                due: [0; 4],
                waived: [0; 4],
                written_off: [0; 4],
            },
        },
        Some((loan, account)) => LoanState {
            product: loan.product,
            sums: LoanSums::of(loan, account),
            accrued: AccruedSums::of(account, day),
        },
    }
}

/// What the books read of a loan of a store at the end of a day. The error is F20.
pub(crate) fn loan_state<S: InstitutionStore>(
    alloc: Global,
    store: &mut S,
    loan: Account,
    day: Day,
) -> Result<LoanState, Fault>
    ensures { Reads S.stands S.clean S.leaves (state_at day loan) store.old store.new result }
{
    match store.ledger(alloc, loan) {
        Ok(found) => Ok(state_of(&found, day)),
        Err(fault) => Err(fault),
    }
}
