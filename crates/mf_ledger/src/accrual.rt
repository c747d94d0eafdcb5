//! Books on an accrual basis: what they add to those on a cash basis.

ghost use Rattle.std.specs.Prelude.{◌≡◌, ◌<◌, ◌≤ℤ◌, ◌^◌, ◌*◌, pos, neg_ℤ};
ghost use Rattle.mf_alloc.specs.Rows.{place_in_row};
ghost use Rattle.mf_ledger.specs.Accrual.{accrued_on, adjusting_posting, adjusting_between, due_open};

use crate::books::{BookAccount, Posting, Title};
use mf_account::LoanAccount;
use mf_alloc::{Instalment, Portion};
use mf_base::Day;
use mf_office::OfficeNo;

/// What accrual reads of a loan at the end of a day, in cents, by portion: penalties, fees, interest, principal.
#[derive(Clone, Copy)]
pub struct AccruedSums {
    /// What is outstanding in the instalments that fell due by then.
    pub due: [u64; 4],
    /// What is waived.
    pub waived: [u64; 4],
    /// What is written off.
    pub written_off: [u64; 4],
}

/// What is outstanding of a portion in the instalments that fell due by the end of a day.
fn due_outstanding(rows: &[Instalment], portion: Portion, day: Day) -> u64
    requires { due_open day rows.now (place_in_row portion) < 2 ^ 64 }
    ensures { result ≡ due_open day rows.now (place_in_row portion) }
{
    let mut due = 0;
    for row in rows {
        if row.due <= day {
            due += row.outstanding(portion);
        }
    }
    due
}

impl AccruedSums {
    ghost use Rattle.std.specs.Prelude.{◌≡◌, ◌<◌, ◌≤ℤ◌, ◌^◌, ◌*◌, pos, neg_ℤ, option_map};
    ghost use Rattle.mf_account.specs.Change.{account_by_replay};
    ghost use Rattle.mf_model.specs.Accounts.{account_in};
    ghost use Rattle.mf_model.specs.Institution.{Catalogue, Ledger};
    ghost use Rattle.mf_ledger.specs.Accrual.{accrued_in, unpaid_income};

    /// What accrual reads of a loan at the end of a day, with its account where it is disbursed.
    pub fn of(account: &Option<LoanAccount>, day: Day) -> AccruedSums
        ensures { (k : Catalogue) (l : Ledger) → account.now ≡ option_map account_by_replay (account_in k l) →
            result ≡ accrued_in day k l }
    {
        match account {
            None => AccruedSums {
                due: [0; 4],
                waived: [0; 4],
                written_off: [0; 4],
            },
            Some(account) => {
                let balances = account.balances();
                let rows = account.rows();
                let due = [
                    due_outstanding(rows, Portion::Penalty, day),
                    due_outstanding(rows, Portion::Fee, day),
                    due_outstanding(rows, Portion::Interest, day),
                    due_outstanding(rows, Portion::Principal, day),
                ];
                let (waived, written_off) = (balances.waived, balances.written_off);
                AccruedSums {
                    due,
                    waived,
                    written_off,
                }
            }
        }
    }

    /// The income of a portion that was not paid.
    fn unpaid_income(&self, portion: usize) -> i128
        requires { portion < 4 }
        ensures value { result ≡ unpaid_income portion self.now }
        ensures least { neg_ℤ (pos (3 * 2 ^ 64)) ≤ℤ result }
        ensures most { result ≤ℤ pos 0 }
    {
        let due = i128::from(self.due[portion]);
        let given_up = i128::from(self.waived[portion]) + i128::from(self.written_off[portion]);
        -(due + given_up)
    }
}

impl Title {
    ghost use Rattle.std.specs.Prelude.{◌≡◌, ◌≤ℤ◌, ◌^◌, ◌*◌, pos, neg_ℤ};
    ghost use Rattle.mf_ledger.specs.Accrual.{accrued_on};

    /// What accrual adds on the account for a loan with these sums, in cents; a debit is positive. It is at most 3
    /// times 2^64, and no sum overflows.
    pub fn accrued(self, sums: &AccruedSums) -> i128
        ensures value { result ≡ accrued_on self sums.now }
        ensures least { neg_ℤ (pos (3 * 2 ^ 64)) ≤ℤ result }
        ensures most { result ≤ℤ pos (3 * 2 ^ 64) }
    {
        match self {
            Title::InterestReceivable => i128::from(sums.due[2]),
            Title::FeesReceivable => i128::from(sums.due[1]),
            Title::PenaltiesReceivable => i128::from(sums.due[0]),
            Title::InterestWaived => i128::from(sums.waived[2]),
            Title::FeesWaived => i128::from(sums.waived[1]),
            Title::PenaltiesWaived => i128::from(sums.waived[0]),
            Title::InterestWrittenOff => i128::from(sums.written_off[2]),
            Title::FeesWrittenOff => i128::from(sums.written_off[1]),
            Title::PenaltiesWrittenOff => i128::from(sums.written_off[0]),
            Title::Interest => sums.unpaid_income(2),
            Title::Fees => sums.unpaid_income(1),
            Title::Penalties => sums.unpaid_income(0),
            _ => 0,
        }
    }
}

/// What a change, or a day, adds to the account of a title.
fn adjusting_posting(
    office: OfficeNo,
    product: u32,
    title: Title,
    before: &AccruedSums,
    after: &AccruedSums,
) -> Posting
    ensures { result ≡ adjusting_posting office product before.now after.now title }
{
    Posting {
        account: BookAccount {
            title,
            office,
            product,
        },
        amount: title.accrued(after) - title.accrued(before),
    }
}

/// The adjusting postings of a loan between two states of it, or between two days: what books on an accrual basis add
/// to those on a cash basis. They are exact for any sums: no sum overflows.
pub fn adjusting_postings(
    office: OfficeNo,
    product: u32,
    before: &AccruedSums,
    after: &AccruedSums,
) -> [Posting; 12]
    ensures { result ≡ adjusting_between office product before.now after.now }
{
    [
        adjusting_posting(office, product, Title::InterestReceivable, before, after),
        adjusting_posting(office, product, Title::InterestWaived, before, after),
        adjusting_posting(office, product, Title::InterestWrittenOff, before, after),
        adjusting_posting(office, product, Title::Interest, before, after),
        adjusting_posting(office, product, Title::FeesReceivable, before, after),
        adjusting_posting(office, product, Title::FeesWaived, before, after),
        adjusting_posting(office, product, Title::FeesWrittenOff, before, after),
        adjusting_posting(office, product, Title::Fees, before, after),
        adjusting_posting(office, product, Title::PenaltiesReceivable, before, after),
        adjusting_posting(office, product, Title::PenaltiesWaived, before, after),
        adjusting_posting(office, product, Title::PenaltiesWrittenOff, before, after),
        adjusting_posting(office, product, Title::Penalties, before, after),
    ]
}
