//! How loans are submitted in an office.

ghost use Rattle.std.specs.Prelude.{◌≢◌, IfErr};
ghost use Rattle.mf_model.specs.Loans.{submit};
ghost use Rattle.mf_desk.specs.Answers.{Asks, Decides, in_rows, client_there};

use crate::decision::Decision;
use crate::numbers::next_account;
use mf_base::Fault;
use mf_catalog::check_loan;
use mf_model::{Application, Commit, InstitutionStore, Loan, Reply, Stage};
use mf_office::{Account, OfficeNo};
use std::alloc::Global;

/// Checks that a client is there; F4 where it isn't. An office's clients are numbered from 1 without gaps, so their
/// count decides it.
fn check_client<S: InstitutionStore>(
    alloc: Global,
    store: &mut S,
    client: Account,
) -> Result<(), Fault>
    ensures asks { Asks S.InstitutionStore (client_there client) store.old store.new result }
    ensures refusal { IfErr result (λ f. f ≢ Fault.F19) }
{
    let counts = store.next_numbers(alloc, client.office)?;
    if client.number.get() <= counts.clients {
        Ok(())
    } else {
        Err(Fault::F4)
    }
}

/// A new loan: F4 where its client or its product is missing, then why the product does not lend so, if it does not.
pub fn submit_loan<S: InstitutionStore>(
    alloc: Global,
    store: &mut S,
    office: OfficeNo,
    asked: &Application,
) -> Result<Decision, Fault>
    ensures decides { Decides S.InstitutionStore (in_rows office (λ k rows. submit office asked.now k rows)) store.old
        store.new result }
    ensures refusal { IfErr result (λ f. f ≢ Fault.F19) }
{
    let number = asked.client;
    check_client(alloc, store, Account { office, number })?;
    let product = store.product(alloc, asked.product)?.ok_or(Fault::F4)?;
    check_loan(&product, asked.principal, asked.periods)?;
    let counts = store.next_numbers(alloc, office)?;
    let number = next_account(counts.loans)?;
    let loan = Loan {
        client: asked.client,
        product: asked.product,
        principal: asked.principal,
        periods: asked.periods,
        stage: Stage::Submitted,
    };
    Ok(Decision::change(
        Commit::AddLoan { office, loan },
        Reply::LoanMade(Account { office, number }),
    ))
}
