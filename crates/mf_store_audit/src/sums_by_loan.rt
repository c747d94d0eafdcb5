//! What one loan comes to, by its row and the rows of its entries.

ghost use Rattle.std.specs.Prelude.{◌≡◌, ◌≤◌, if◌then◌else◌, ℕ, List, [], ◌∷◌, map, sum};
ghost use Rattle.std.specs.Prelude.{Some, None, option_map, IfOk, IfErr};
ghost use Rattle.mf_base.specs.declared.fault.Fault.TheVariants.{F20};
ghost use Rattle.mf_account.specs.Balance.{sum_repaid};
ghost use Rattle.mf_account.specs.Change.{account_by_replay};
ghost use Rattle.mf_account.specs.Kinds.{money_in};
ghost use Rattle.mf_model.specs.Accounts.{account_in, balances_in, status_in};
ghost use Rattle.mf_model.specs.Institution.{Catalogue, Ledger};
ghost use Rattle.mf_model.specs.Sound.{IsSoundCatalogue};
ghost use Rattle.mf_model.specs.Stages.{stage_number};
ghost use Rattle.mf_store_values.specs.Flat.{charge_as, product_as, loan_in, entry_in, numbered_from};
ghost use Rattle.mf_store_values.specs.Ledgers.{IsPlainLoan};
ghost use Rattle.mf_store_audit.specs.Sums.{loan_counts, entry_counts, lent_on, principal_sums, money_sums};
ghost use Rattle.mf_store_audit.specs.Sums.{sums_by_loan};

use crate::totals::{EntryCounts, LoanCounts, MoneySums, PrincipalSums, Sums};
use mf_account::{Balances, Entry, Kind, LoanAccount};
use mf_alloc::Portion;
use mf_base::Fault;
use mf_store_schema::{ChargeRow, EntryRow, LoanRow, ProductRow};
use mf_store_values::{account_of, amount_from};
use std::alloc::Global;

/// 1 for yes.
fn one_if(yes: bool) -> u64
    ensures value { result ≡ (if yes then 1 else 0) }
    ensures most { result ≤ 1 }
{
    if yes { 1 } else { 0 }
}

/// One loan with this status.
fn count_at(status: u32) -> LoanCounts
    ensures { (k : Catalogue) (l : Ledger) → status_in k l ≡ status → result ≡ loan_counts k (l ∷ []) }
{
    LoanCounts {
        submitted: one_if(status == 100),
        approved: one_if(status == 200),
        active: one_if(status == 300),
        withdrawn: one_if(status == 400),
        rejected: one_if(status == 500),
        closed: one_if(status == 600),
        written_off: one_if(status == 601),
        overpaid: one_if(status == 700),
    }
}

/// How many of a loan's entries stand, and how many are reversed.
fn count_entries(entries: &[Entry]) -> EntryCounts
    ensures { (l : Ledger) → l.entries ≡ entries.now → result ≡ entry_counts (l ∷ []) }
{
    let mut standing = 0;
    let mut reversed = 0;
    for entry in entries {
        standing += one_if(!entry.reversed);
        reversed += one_if(entry.reversed);
    }
    EntryCounts { standing, reversed }
}

/// What an entry brought, while it stands.
fn amount_brought(entry: &Entry) -> u64
    ensures { result ≡ (if entry.now.reversed then 0 else money_in entry.now.kind entry.now.amount) }
{
    if entry.reversed {
        return 0;
    }
    match entry.kind {
        Kind::Repay => entry.amount,
        Kind::Fee | Kind::Penalty | Kind::Waive | Kind::WriteOff | Kind::Refund => 0,
    }
}

/// What the repayments that stand brought.
fn sum_repaid(entries: &[Entry]) -> u128
    ensures { result ≡ sum_repaid entries.now }
{
    let mut total: u128 = 0;
    for entry in entries {
        total += u128::from(amount_brought(entry));
    }
    total
}

/// The sum of amounts.
fn sum_of(amounts: &[u64]) -> u128
    ensures { result ≡ sum amounts.now }
{
    let mut total: u128 = 0;
    for amount in amounts {
        total += u128::from(*amount);
    }
    total
}

/// Where the principal of a loan is, by what was lent on it and its balances.
fn principal_of(balances: &Balances, lent: u64) -> PrincipalSums
    ensures { (k : Catalogue) (l : Ledger) → balances_in k l ≡ balances.now → lent_on k l ≡ lent →
        result ≡ principal_sums k (l ∷ []) }
{
    let place = Portion::Principal.index();
    PrincipalSums {
        disbursed: u128::from(lent),
        paid: u128::from(balances.paid[place]),
        written_off: u128::from(balances.written_off[place]),
        outstanding: u128::from(balances.outstanding[place]),
    }
}

/// Where the money of a loan went, by what was repaid and its balances.
fn money_of(balances: &Balances, repaid: u128) -> MoneySums
    ensures { (k : Catalogue) (l : Ledger) → balances_in k l ≡ balances.now → sum_repaid l.entries ≡ repaid →
        result ≡ money_sums k (l ∷ []) }
{
    MoneySums {
        repaid,
        paid: sum_of(&balances.paid),
        overpaid: u128::from(balances.overpaid),
        refunded: u128::from(balances.refunded),
    }
}

/// What a disbursed loan comes to, by its principal and its account.
fn account_sums(lent: u64, account: &LoanAccount) -> Sums
    ensures { (k : Catalogue) (l : Ledger) → Some account.now ≡ option_map account_by_replay (account_in k l) →
        l.loan.principal ≡ lent → result ≡ sums_by_loan k 0 (l ∷ []) }
{
    let entries = account.entries();
    let balances = account.balances();
    Sums {
        clients: 0,
        loans: count_at(u32::from(account.status())),
        entries: count_entries(entries),
        principal: principal_of(&balances, lent),
        money: money_of(&balances, sum_repaid(entries)),
    }
}

/// What a loan comes to that is not disbursed, by the number of its stage.
fn stage_sums(stage: u32) -> Sums
    ensures { (k : Catalogue) (l : Ledger) → account_in k l ≡ None → l.entries ≡ [] →
        stage_number l.loan.stage ≡ stage → result ≡ sums_by_loan k 0 (l ∷ []) }
{
    let none = Sums::of_clients(0);
    Sums {
        loans: count_at(stage),
        ..none
    }
}

/// What the loan of a row comes to. Its account is replayed. The only error is F20, out of memory.
pub(crate) fn loan_sums(
    alloc: Global,
    charges: &[ChargeRow],
    products: &[ProductRow],
    row: &LoanRow,
    entries: &[EntryRow],
) -> Result<Sums, Fault>
    ensures sums { IfOk result (λ found. (k : Catalogue) → IsSoundCatalogue k →
        numbered_from charge_as 1 k.charges ≡ charges.now → numbered_from product_as 1 k.products ≡ products.now →
        (office number : ℕ) (names : List (List ℕ)) (l : Ledger) → IsPlainLoan k names l →
        loan_in office number l.loan ≡ row.now → map (entry_in office number) l.entries ≡ entries.now →
        found ≡ sums_by_loan k 0 (l ∷ [])) }
    ensures gives_up { IfErr result (λ fault. fault ≡ F20) }
{
    let found = account_of(alloc, charges, products, row, entries)?;
    let Some(account) = found else {
        return Ok(stage_sums(row.stage));
    };
    let lent = amount_from(row.principal).unwrap_or(0);
    Ok(account_sums(lent, &account))
}
