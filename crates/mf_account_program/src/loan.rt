//! A loan with repayments of one cent.

ghost use Rattle.std.specs.Prelude.{◌≡◌, ℕ, ◌+◌, ◌<◌, ◌≤◌, false, IsTrue, IfOk, IfSome, length};
ghost use Rattle.mf_alloc.specs.declared.row.Portion.TheVariants.{Principal};
ghost use Rattle.mf_base.specs.DayText.{last_entered_day};
ghost use Rattle.mf_schedule.specs.Fresh.{IsLoanWithinLimits};
ghost use Rattle.mf_account.specs.declared.entry.Kind.TheVariants.{Repay};
ghost use Rattle.mf_account.specs.Standing.{entry_at};

use crate::step::Step;
use mf_account::{DisbursedLoan, Entry, Kind, LoanAccount};
use mf_alloc::Portion;
use mf_base::{Day, Fault, Freq};
use mf_catalog::{Method, StrategyName, Terms};
use mf_office::{Caller, OfficeNo, StaffNo};
use std::alloc::Global;
use std::time::{Clock, Instant};

const PRINCIPAL: u64 = 10_000_000;

const PERIODS: u32 = 12;

/// A loan that no cents here pay off, disbursed on 2024-01-31. The business day is 2024-03-31.
#[derive(Drop)]
pub(crate) struct OpenLoan {
    account: LoanAccount,
    disbursed_on: Day,
    earlier: Day,
    business_day: Day,
    /// Nanoseconds of the last entry or reversal.
    taken: u64,
    ghost disbursed: { account.loan.day ≤ business_day },
}

fn terms() -> Terms
    ensures { IsLoanWithinLimits result PRINCIPAL PERIODS }
{
    Terms {
        method: Method::EqualPrincipal,
        rate: 1200,
        freq: Freq::Months,
        every: 1,
        principal_grace: 0,
        interest_grace: 0,
        strategy: StrategyName::MifosStandard,
        disbursement: None,
        instalment: None,
        overdue: None,
    }
}

/// The loan, disbursed on a day, with these entries.
fn lent(day: Day, entries: Vec<Entry>) -> DisbursedLoan
    ensures limits { IsLoanWithinLimits result.terms result.principal result.periods }
    ensures day { result.day ≡ day }
    ensures entries { result.entries ≡ entries.items }
{
    DisbursedLoan {
        terms: terms(),
        principal: PRINCIPAL,
        periods: PERIODS,
        day,
        entries,
    }
}

fn day(text: &str) -> Result<Day, Fault>
    ensures { IfOk result (λ d. d ≤ last_entered_day) }
{
    match Day::parse(text.as_bytes()) {
        Some(day) => Ok(day),
        None => Err(Fault::F1),
    }
}

/// Whether a day is not before any entry's.
fn is_latest(entries: &[Entry], day: Day) -> bool
    ensures { IsTrue result → (i : ℕ) → i < length entries.now → (entry_at entries.now i).day ≤ day }
{
    entries.iter().all(|entry| entry.day <= day)
}

/// A repayment of one cent by the head's first manager.
fn cent(seq: u32, day: Day) -> Option<Entry>
    ensures number { IfSome result (λ entry. entry.seq ≡ seq) }
    ensures stands { IfSome result (λ entry. entry.reversed ≡ false) }
    ensures kind { IfSome result (λ entry. entry.kind ≡ Repay) }
    ensures amount { IfSome result (λ entry. entry.amount ≡ 1) }
    ensures columns { IfSome result (λ entry. (entry.instalment ≡ 0) × (entry.portion ≡ Principal)) }
{
    let staff = Caller {
        office: OfficeNo::new(1)?,
        staff: StaffNo::new(1)?,
    };
    Some(Entry {
        seq,
        kind: Kind::Repay,
        day,
        amount: 1,
        instalment: 0,
        portion: Portion::Principal,
        receipt: None,
        staff,
        reversed: false,
    })
}

fn now(clock: &impl Clock) -> Result<Instant, Fault> {
    match Instant::now(clock) {
        Ok(now) => Ok(now),
        Err(_) => Err(Fault::F20),
    }
}

/// Nanoseconds since then.
fn since(clock: &impl Clock, start: Instant) -> Result<u64, Fault> {
    match start.elapsed(clock) {
        Ok(taken) => Ok(u64::try_from(taken.as_nanos()).unwrap_or(u64::MAX)),
        Err(_) => Err(Fault::F20),
    }
}

impl OpenLoan {
    /// The loan with nothing entered.
    pub fn new(alloc: Global) -> Result<OpenLoan, Fault> {
        let disbursed_on = day("2024-01-31")?;
        let earlier = day("2024-02-29")?;
        let business_day = day("2024-03-31")?;
        if business_day < disbursed_on {
            return Err(Fault::F17);
        }
        let loan = lent(disbursed_on, Vec::new(alloc));
        let account = LoanAccount::replay(alloc, loan)?;
        Ok(OpenLoan {
            account,
            disbursed_on,
            earlier,
            business_day,
            taken: 0,
        })
    }

    /// Takes a step, and says what came of it.
    pub fn tell<C: Clock>(
        &mut self,
        alloc: Global,
        clock: &C,
        step: Step,
    ) -> Result<String, Fault> {
        match step {
            Step::Early(count) => {
                let day = self.earlier;
                self.enter_cents(alloc, clock, count, day)?;
            }
            Step::Late(count) => {
                let day = self.business_day;
                self.enter_cents(alloc, clock, count, day)?;
            }
            Step::Reverse => self.reverse_last(alloc, clock)?,
            Step::Replay(count) => return self.replay(alloc, count),
            Step::Time => {
                let text = format!(in alloc; "{}", self.taken)?;
                return Ok(text);
            }
        }
        self.describe(alloc)
    }

    /// How many entries the loan has, and the instalments and entries that the last one changed.
    fn describe(&self, alloc: Global) -> Result<String, Fault> {
        let count = self.account.entries().len();
        let change = self.account.change();
        let (rows, seqs) = (change.rows.as_slice(), change.seqs.as_slice());
        let text = format!(in alloc; "{count} entries, instalments {rows:?}, entries {seqs:?}")?;
        Ok(text)
    }

    fn enter_cents<C: Clock>(
        &mut self,
        alloc: Global,
        clock: &C,
        count: u32,
        day: Day,
    ) -> Result<(), Fault> {
        for _ in 0..count {
            self.enter_cent(alloc, clock, day)?;
        }
        Ok(())
    }

    fn enter_cent<C: Clock>(&mut self, alloc: Global, clock: &C, day: Day) -> Result<(), Fault> {
        let Ok(entered) = u32::try_from(self.account.entries().len()) else {
            return Err(Fault::F18);
        };
        if entered >= 9999 {
            return Err(Fault::F18);
        }
        match cent(entered + 1, day) {
            Some(entry) => self.offer(alloc, clock, entry),
            None => Err(Fault::F2),
        }
    }

    fn offer<C: Clock>(&mut self, alloc: Global, clock: &C, entry: Entry) -> Result<(), Fault>
        requires next { entry.seq ≡ length self.old.account.loan.entries + 1 }
        requires stands { entry.reversed ≡ false }
        requires kind { entry.kind ≡ Repay }
        requires amount { entry.amount ≡ 1 }
        requires columns { (entry.instalment ≡ 0) × (entry.portion ≡ Principal) }
    {
        let entries = self.account.entries();
        if !is_latest(entries, self.business_day) {
            return Err(Fault::F10);
        }
        let start = now(clock)?;
        self.account.enter(alloc, entry, self.business_day)?;
        self.taken = since(clock, start)?;
        Ok(())
    }

    fn reverse_last<C: Clock>(&mut self, alloc: Global, clock: &C) -> Result<(), Fault> {
        let Ok(seq) = u32::try_from(self.account.entries().len()) else {
            return Err(Fault::F18);
        };
        let start = now(clock)?;
        self.account.reverse(alloc, seq)?;
        self.taken = since(clock, start)?;
        Ok(())
    }

    /// Works out the account of so many repayments of one cent by a replay, and says how many entries it has.
    fn replay(&self, alloc: Global, count: u32) -> Result<String, Fault> {
        let mut entries = Vec::new(alloc);
        for entered in 0..count {
            match cent(entered + 1, self.earlier) {
                Some(entry) => entries.push(entry)?,
                None => return Err(Fault::F2),
            }
        }
        match LoanAccount::of_entries(alloc, lent(self.disbursed_on, entries))? {
            Some(account) => {
                let text = format!(in alloc; "{} entries replayed", account.entries().len())?;
                Ok(text)
            }
            None => Err(Fault::F18),
        }
    }
}
