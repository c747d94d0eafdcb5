//! A loan under test, and what is done to it.

ghost use Rattle.std.specs.Prelude.{◌≡◌, ℕ, ◌+◌, ◌<◌, ◌≤◌, false, IsTrue, IfOk, length};
ghost use Rattle.mf_base.specs.DayText.{last_entered_day};
ghost use Rattle.mf_schedule.specs.Fresh.{IsLoanWithinLimits};
ghost use Rattle.mf_account.specs.Standing.{entry_at};

use mf_account::{DisbursedLoan, Entry, Kind, LoanAccount};
use mf_alloc::Portion;
use mf_base::{Day, Fault, Freq};
use mf_catalog::{Method, StrategyName, Terms};
use mf_office::{Caller, OfficeNo, StaffNo};
use std::alloc::Global;

/// What is done to a loan, or asked of it.
#[derive(Clone, Copy)]
pub(crate) enum Step {
    /// A repayment: its day and its cents.
    Repay(&'static str, u64),
    /// The reversal of the entry of a number.
    Reverse(u32),
    /// What the calls that read tell.
    Status,
    Balances,
    Entries,
    /// What the entry of a number settled.
    Shares(u32),
    Change,
}

/// A loan of 100000 cents at 12 percent for 3 months of equal principal, disbursed on 2024-01-31. The business day is
/// 2024-03-31.
#[derive(Drop)]
pub(crate) struct OpenLoan {
    account: LoanAccount,
    business_day: Day,
    ghost disbursed: { account.loan.day ≤ business_day },
}

fn terms() -> Terms
    ensures { IsLoanWithinLimits result 100000 3 }
{
    Terms {
        method: Method::EqualPrincipal,
        rate: 1200,
        freq: Freq::Months,
        every: 1,
        principal_grace: 0,
        interest_grace: 0,
        strategy: StrategyName::MifosStandard,
        disbursement: None,
        instalment: None,
        overdue: None,
    }
}

fn day(text: &str) -> Result<Day, Fault>
    ensures { IfOk result (λ d. d ≤ last_entered_day) }
{
    match Day::parse(text.as_bytes()) {
        Some(day) => Ok(day),
        None => Err(Fault::F1),
    }
}

/// Whether a day is not before any entry's.
fn is_latest(entries: &[Entry], day: Day) -> bool
    ensures { IsTrue result → (i : ℕ) → i < length entries.now → (entry_at entries.now i).day ≤ day }
{
    entries.iter().all(|entry| entry.day <= day)
}

fn manager() -> Option<Caller> {
    Some(Caller {
        office: OfficeNo::new(1)?,
        staff: StaffNo::new(1)?,
    })
}

impl OpenLoan {
    /// The loan, with nothing entered.
    pub fn new(alloc: Global) -> Result<OpenLoan, Fault> {
        let first = day("2024-01-31")?;
        let business_day = day("2024-03-31")?;
        if business_day < first {
            return Err(Fault::F17);
        }
        let loan = DisbursedLoan {
            terms: terms(),
            principal: 100000,
            periods: 3,
            day: first,
            entries: Vec::new(alloc),
        };
        let account = LoanAccount::replay(alloc, loan)?;
        Ok(OpenLoan {
            account,
            business_day,
        })
    }

    /// Takes steps, and gives what is told: by a refused one the number of its refusal, by one that reads what it
    /// reads.
    pub fn take_steps(&mut self, alloc: Global, steps: &[Step]) -> Result<String, Fault> {
        let mut text = String::new(alloc);
        for step in steps {
            match self.tell(alloc, *step, &mut text) {
                Err(Fault::F20) => return Err(Fault::F20),
                Err(fault) => write!(text, "{fault:?};")?,
                Ok(()) => {}
            }
        }
        Ok(text)
    }

    fn tell(&mut self, alloc: Global, step: Step, text: &mut String) -> Result<(), Fault> {
        match step {
            Step::Status => self.tell_status(text),
            Step::Balances => self.tell_balances(text),
            Step::Entries => self.tell_entries(text),
            Step::Shares(seq) => self.tell_shares(alloc, seq, text),
            Step::Change => self.tell_change(text),
            Step::Repay(text, amount) => self.repay(alloc, day(text)?, amount),
            Step::Reverse(seq) => self.account.reverse(alloc, seq),
        }
    }

    fn tell_status(&self, text: &mut String) -> Result<(), Fault> {
        let status = self.account.status();
        write!(text, "{status};")?;
        Ok(())
    }

    /// The disbursement fee, and the sums, each by penalty, fee, interest and principal.
    fn tell_balances(&self, text: &mut String) -> Result<(), Fault> {
        let sums = self.account.balances();
        let (fee, owed, paid) = (sums.disbursement_fee, sums.owed, sums.paid);
        write!(text, "fee {fee} owed {owed:?} paid {paid:?} ")?;
        let (waived, written_off) = (sums.waived, sums.written_off);
        write!(text, "waived {waived:?} written off {written_off:?} ")?;
        let (outstanding, overpaid, refunded) = (sums.outstanding, sums.overpaid, sums.refunded);
        write!(
            text,
            "outstanding {outstanding:?} overpaid {overpaid} refunded {refunded};"
        )?;
        Ok(())
    }

    fn tell_entries(&self, text: &mut String) -> Result<(), Fault> {
        let count = self.account.entries().len();
        write!(text, "{count} entries;")?;
        Ok(())
    }

    /// What an entry settled: instalment, portion and cents of each share.
    fn tell_shares(&self, alloc: Global, seq: u32, text: &mut String) -> Result<(), Fault> {
        let shares = self.account.shares(alloc, seq)?;
        for share in shares.as_slice() {
            let (instalment, portion) = (share.cell.instalment, share.cell.portion);
            let amount = share.amount;
            write!(text, "{instalment} {portion:?} {amount},")?;
        }
        text.push_str(";")?;
        Ok(())
    }

    /// The instalments and entries that the last entry or reversal changed.
    fn tell_change(&self, text: &mut String) -> Result<(), Fault> {
        let change = self.account.change();
        let (rows, seqs) = (change.rows.as_slice(), change.seqs.as_slice());
        write!(text, "{rows:?} {seqs:?};")?;
        Ok(())
    }

    /// Enters a repayment, where it may be offered.
    fn repay(&mut self, alloc: Global, day: Day, amount: u64) -> Result<(), Fault> {
        let entries = self.account.entries();
        let (Some(staff), Ok(entered)) = (manager(), u32::try_from(entries.len())) else {
            return Err(Fault::F2);
        };
        if entered >= 9999 || amount < 1 || amount > 1_000_000_000_000 {
            return Err(Fault::F18);
        }
        if !is_latest(entries, self.business_day) {
            return Err(Fault::F1);
        }
        let entry = Entry {
            seq: entered + 1,
            kind: Kind::Repay,
            day,
            amount,
            instalment: 0,
            portion: Portion::Principal,
            receipt: None,
            staff,
            reversed: false,
        };
        self.account.enter(alloc, entry, self.business_day)
    }
}
