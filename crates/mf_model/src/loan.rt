//! Loans as an institution keeps them: their stage, their members and what is shown of them.

ghost use Rattle.std.specs.Prelude.{◌≡◌, option_map};
ghost use Rattle.mf_account.specs.Change.{account_by_replay};
ghost use Rattle.mf_model.specs.Accounts.{account_in, no_balances, statement, statement_with};
ghost use Rattle.mf_model.specs.Institution.{Catalogue, Ledger};
ghost use Rattle.mf_model.specs.Stages.{stage_number, disbursed_on};

use mf_account::{Balances, LoanAccount};
use mf_base::Day;
use mf_office::{Account, AccountNo};

/// How far a loan has come.
#[derive(Clone, Copy)]
pub enum Stage {
    /// Submitted, and pending approval.
    Submitted,
    /// Approved on this business day.
    Approved(Day),
    /// Disbursed on a day, after it was approved on another or on the same.
    Disbursed { approved: Day, day: Day },
    /// Withdrawn by the client.
    Withdrawn,
    /// Rejected.
    Rejected,
}

impl Stage {
    /// The stage's number: 100 submitted, 200 approved, 300 disbursed, 400 withdrawn, 500 rejected. It is the loan's
    /// status until it is disbursed; then its account says more.
    pub fn status(self) -> u16
        ensures { result ≡ stage_number self }
    {
        match self {
            Stage::Submitted => 100,
            Stage::Approved(_) => 200,
            Stage::Disbursed { .. } => 300,
            Stage::Withdrawn => 400,
            Stage::Rejected => 500,
        }
    }
}

/// A loan as it was submitted, and how far it has come.
#[derive(Clone, Copy)]
pub struct Loan {
    /// The number of its client, within the same office.
    pub client: AccountNo,
    /// The number of its product.
    pub product: u32,
    /// What is lent, in cents.
    pub principal: u64,
    /// The number of instalments.
    pub periods: u32,
    /// How far it has come.
    pub stage: Stage,
}

impl Loan {
    /// The day of its disbursement; None before it.
    pub fn disbursal_day(&self) -> Option<Day>
        ensures { result ≡ disbursed_on self.now.stage }
    {
        match self.stage {
            Stage::Disbursed { day, .. } => Some(day),
            _ => None,
        }
    }
}

/// A loan as it is shown.
#[derive(Clone, Copy)]
pub struct Statement {
    /// The number of its client, within the same office.
    pub client: AccountNo,
    /// The number of its product.
    pub product: u32,
    /// What is lent, in cents.
    pub principal: u64,
    /// The number of instalments.
    pub periods: u32,
    /// The day of its disbursement.
    pub day: Option<Day>,
    /// Its status number.
    pub status: u16,
    /// Its sums; all are 0 before it is disbursed.
    pub balances: Balances,
}

/// The sums of a loan before it is disbursed.
fn no_balances() -> Balances
    ensures { result ≡ no_balances }
{
    Balances {
        disbursement_fee: 0,
        owed: [0; 4],
        paid: [0; 4],
        waived: [0; 4],
        written_off: [0; 4],
        outstanding: [0; 4],
        overpaid: 0,
        refunded: 0,
    }
}

impl Statement {
    /// A loan as it is shown with this status and these sums.
    pub fn with(loan: &Loan, status: u16, balances: Balances) -> Statement
        ensures { result ≡ statement_with loan.now status balances }
    {
        Statement {
            client: loan.client,
            product: loan.product,
            principal: loan.principal,
            periods: loan.periods,
            day: loan.disbursal_day(),
            status,
            balances,
        }
    }

    /// A loan as it is shown, with its account where it is disbursed.
    pub fn of(loan: &Loan, account: &Option<LoanAccount>) -> Statement
        ensures { (k : Catalogue) (l : Ledger) → loan.now ≡ l.loan
            → account.now ≡ option_map account_by_replay (account_in k l) → result ≡ statement k l }
    {
        match account {
            None => Statement::with(loan, loan.stage.status(), no_balances()),
            Some(account) => Statement::with(loan, account.status(), account.balances()),
        }
    }
}

/// The entry that carries a receipt.
#[derive(Clone, Copy)]
pub struct ReceiptUse {
    /// The number of its loan, within the office that the receipt belongs to.
    pub loan: AccountNo,
    /// Its number within the loan.
    pub seq: u32,
    /// The day that it counts from.
    pub day: Day,
    /// What was repaid, in cents.
    pub amount: u64,
}

/// A loan in a list of loans.
#[derive(Clone, Copy)]
pub struct LoanLine {
    /// The loan's account number.
    pub loan: Account,
    /// Its status number.
    pub status: u16,
}
