//! What the books read of a loan, and the postings of a change.

ghost use Rattle.std.specs.Prelude.{◌≡◌, ◌+◌, ◌<◌, ◌^◌, ◌≤ℤ◌, ℕ, Bool, List, pos, neg_ℤ, option_map, sum};
ghost use Rattle.mf_office.specs.declared.caller.Caller.{Caller};
ghost use Rattle.mf_account.specs.Change.{account_by_replay};
ghost use Rattle.mf_model.specs.Accounts.{account_in};
ghost use Rattle.mf_model.specs.Institution.{Catalogue, Ledger};
ghost use Rattle.mf_model.specs.Sound.{IsSoundCatalogue, IsSoundLoan};
ghost use Rattle.mf_ledger.specs.Books.{amount_on, posting_between, postings_between, sums_in};

use mf_account::{Balances, LoanAccount};
use mf_base::Day;
use mf_model::{Loan, Statement};
use mf_office::{Account, OfficeNo};

/// What an account of the books is for.
#[derive(Clone, Copy, PartialEq, Eq)]
pub enum Title {
    /// Money that came in, less money that went out.
    Cash,
    /// Principal that was lent and is outstanding.
    Principal,
    /// Interest that was paid: income.
    Interest,
    /// Fees that were paid: income.
    Fees,
    /// Penalties that were paid: income.
    Penalties,
    /// Fees that were kept when loans were paid out: income.
    DisbursementFees,
    /// Money of clients that is overpaid and was not refunded: a liability.
    Overpaid,
    /// Principal that is written off: an expense.
    WrittenOff,
    /// Interest that fell due and is outstanding: an asset of books on an accrual basis.
    InterestReceivable,
    /// Fees that fell due and are outstanding, on an accrual basis.
    FeesReceivable,
    /// Penalties that fell due and are outstanding, on an accrual basis.
    PenaltiesReceivable,
    /// Interest that was waived: an expense on an accrual basis.
    InterestWaived,
    /// Fees that were waived, on an accrual basis.
    FeesWaived,
    /// Penalties that were waived, on an accrual basis.
    PenaltiesWaived,
    /// Interest that is written off: an expense on an accrual basis.
    InterestWrittenOff,
    /// Fees that are written off, on an accrual basis.
    FeesWrittenOff,
    /// Penalties that are written off, on an accrual basis.
    PenaltiesWrittenOff,
}

/// An account of the books.
#[derive(Clone, Copy)]
pub struct BookAccount {
    pub title: Title,
    /// The office whose loans stand on it.
    pub office: OfficeNo,
    /// The product whose loans stand on it.
    pub product: u32,
}

/// What a change moves on one account.
#[derive(Clone, Copy)]
pub struct Posting {
    pub account: BookAccount,
    /// In cents; a debit is positive, a credit negative.
    pub amount: i128,
}

/// The postings of one line of the journal.
#[derive(Drop)]
pub struct Transaction {
    /// The number of the line, from 1.
    pub number: u64,
    /// The business day on which the request was accepted.
    pub day: Day,
    /// The loan that the request changed.
    pub loan: Account,
    /// One for each title, in the order of titles.
    pub postings: [Posting; 8],
}

/// What the books read of a loan, in cents.
#[derive(Clone, Copy)]
pub struct LoanSums {
    /// What was lent: its principal, once it is disbursed.
    pub lent: u64,
    /// What its standing repayments come to.
    pub repaid: u64,
    /// Its sums by portion.
    pub balances: Balances,
}

/// What standing repayments come to, by what they paid, what is overpaid and what was refunded.
fn repaid_in(balances: &Balances) -> u64
    ensures { sum balances.now.paid + balances.now.overpaid + balances.now.refunded < 2 ^ 64
        → result ≡ sum balances.now.paid + balances.now.overpaid + balances.now.refunded }
{
    let paid = &balances.paid;
    paid[0]
        .saturating_add(paid[1])
        .saturating_add(paid[2])
        .saturating_add(paid[3])
        .saturating_add(balances.overpaid)
        .saturating_add(balances.refunded)
}

impl LoanSums {
    /// What the books read of a loan, with its account where it is disbursed.
    pub fn of(loan: &Loan, account: &Option<LoanAccount>) -> LoanSums
        ensures { (k : Catalogue) (staffed : Caller → Bool) (clients : List (List ℕ)) (l : Ledger) →
            IsSoundCatalogue k → IsSoundLoan k staffed clients l → loan.now ≡ l.loan →
            account.now ≡ option_map account_by_replay (account_in k l) → result ≡ sums_in k l }
    {
        let balances = Statement::of(loan, account).balances;
        match account {
            None => LoanSums {
                lent: 0,
                repaid: 0,
                balances,
            },
            Some(_) => LoanSums {
                lent: loan.principal,
                repaid: repaid_in(&balances),
                balances,
            },
        }
    }
}

impl Title {
    /// What stands on the account for a loan with these sums, in cents; a debit is positive. It is at most 2^65, and no
    /// sum overflows.
    pub fn amount(self, sums: &LoanSums) -> i128
        ensures value { result ≡ amount_on self sums.now }
        ensures least { neg_ℤ (pos (2 ^ 65)) ≤ℤ result }
        ensures most { result ≤ℤ pos (2 ^ 65) }
    {
        let balances = &sums.balances;
        match self {
            Title::Cash => {
                let came_in = i128::from(sums.repaid) + i128::from(balances.disbursement_fee);
                let went_out = i128::from(sums.lent) + i128::from(balances.refunded);
                came_in - went_out
            }
            Title::Principal => i128::from(balances.outstanding[3]),
            Title::Interest => -i128::from(balances.paid[2]),
            Title::Fees => -i128::from(balances.paid[1]),
            Title::Penalties => -i128::from(balances.paid[0]),
            Title::DisbursementFees => -i128::from(balances.disbursement_fee),
            Title::Overpaid => -i128::from(balances.overpaid),
            Title::WrittenOff => i128::from(balances.written_off[3]),
            _ => 0,
        }
    }
}

/// What a change moves on one account of its loan: what stands there afterwards, less what stood there before.
fn posting_on(
    office: OfficeNo,
    product: u32,
    title: Title,
    before: &LoanSums,
    after: &LoanSums,
) -> Posting
    ensures { result ≡ posting_between office product before.now after.now title }
{
    Posting {
        account: BookAccount {
            title,
            office,
            product,
        },
        amount: title.amount(after) - title.amount(before),
    }
}

/// The postings of a change of a loan, one for each title, from what the books read of the loan before it and after it.
/// They are exact for any sums: no sum overflows.
pub fn postings(office: OfficeNo, product: u32, before: &LoanSums, after: &LoanSums) -> [Posting; 8]
    ensures { result ≡ postings_between office product before.now after.now }
{
    [
        posting_on(office, product, Title::Cash, before, after),
        posting_on(office, product, Title::Principal, before, after),
        posting_on(office, product, Title::Interest, before, after),
        posting_on(office, product, Title::Fees, before, after),
        posting_on(office, product, Title::Penalties, before, after),
        posting_on(office, product, Title::DisbursementFees, before, after),
        posting_on(office, product, Title::Overpaid, before, after),
        posting_on(office, product, Title::WrittenOff, before, after),
    ]
}
