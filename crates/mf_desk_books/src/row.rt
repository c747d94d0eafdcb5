//! A loan as the institution in vectors keeps it.

ghost use Rattle.std.specs.Prelude.{◌≡◌, IfErr, IfOk, IfSome};
ghost use Rattle.mf_account.specs.Change.{IsReplayed};

use mf_account::status::ACTIVE;
use mf_account::{Entry, LoanAccount, Receipt};
use mf_arrears::{MOST_LOANS, OfficeLine, arrears};
use mf_base::{Day, Fault};
use mf_catalog::Terms;
use mf_model::{Loan, ReceiptUse, Stage};
use mf_office::AccountNo;
use std::alloc::Global;

/// A loan with its stage in three parts, and its entries.
#[derive(Drop)]
pub(crate) struct Row {
    client: AccountNo,
    pub(crate) product: u32,
    principal: u64,
    periods: u32,
    status: u16,
    approved: Option<Day>,
    disbursed: Option<Day>,
    entries: Vec<Entry>,
}

/// The days of a stage: of approval, and of disbursement.
fn days_of(stage: &Stage) -> (Option<Day>, Option<Day>) {
    match stage {
        Stage::Approved(day) => (Some(*day), None),
        Stage::Disbursed { approved, day } => (Some(*approved), Some(*day)),
        _ => (None, None),
    }
}

/// A copy of an entry.
fn copy_entry(entry: &Entry) -> Result<Entry, Fault>
    ensures { IfErr result (λ fault. fault ≡ Fault.F20) }
{
    Ok(Entry {
        seq: entry.seq,
        kind: entry.kind,
        day: entry.day,
        amount: entry.amount,
        instalment: entry.instalment,
        portion: entry.portion,
        receipt: entry.receipt.clone()?,
        staff: entry.staff,
        reversed: entry.reversed,
    })
}

/// A copy of entries.
fn copy_entries(alloc: Global, entries: &[Entry]) -> Result<Vec<Entry>, Fault>
    ensures { IfErr result (λ fault. fault ≡ Fault.F20) }
{
    let mut copies = Vec::new(alloc);
    for entry in entries {
        copies.push(copy_entry(entry)?)?;
    }
    Ok(copies)
}

impl Row {
    /// A new loan, without entries.
    pub(crate) fn new(alloc: Global, loan: Loan) -> Row {
        let Loan {
            client,
            product,
            principal,
            periods,
            stage,
        } = loan;
        let (approved, disbursed) = days_of(&stage);
        Row {
            client,
            product,
            principal,
            periods,
            status: stage.status(),
            approved,
            disbursed,
            entries: Vec::new(alloc),
        }
    }

    /// It comes to a stage.
    pub(crate) fn set_stage(&mut self, stage: Stage) {
        let (approved, disbursed) = days_of(&stage);
        self.status = stage.status();
        self.approved = approved;
        self.disbursed = disbursed;
    }

    /// It has the entries of an account.
    pub(crate) fn enter(&mut self, account: LoanAccount) {
        self.entries = account.into_entries();
    }

    /// Its entry that carries a receipt, where the loan has this number.
    pub(crate) fn receipt_use(&self, number: AccountNo, receipt: &Receipt) -> Option<ReceiptUse> {
        for entry in &self.entries {
            if let Some(carried) = &entry.receipt {
                if carried.as_str() == receipt.as_str() {
                    return Some(ReceiptUse {
                        loan: number,
                        seq: entry.seq,
                        day: entry.day,
                        amount: entry.amount,
                    });
                }
            }
        }
        None
    }

    fn stage(&self) -> Stage {
        match (self.approved, self.disbursed) {
            (Some(approved), Some(day)) => Stage::Disbursed { approved, day },
            (Some(day), None) => Stage::Approved(day),
            (None, _) => match self.status {
                400 => Stage::Withdrawn,
                500 => Stage::Rejected,
                _ => Stage::Submitted,
            },
        }
    }

    /// The loan without its entries.
    pub(crate) fn loan(&self) -> Loan {
        Loan {
            client: self.client,
            product: self.product,
            principal: self.principal,
            periods: self.periods,
            stage: self.stage(),
        }
    }

    /// Its account over the terms of its product; None before it is disbursed.
    pub(crate) fn account(&self, alloc: Global, terms: Terms) -> Result<Option<LoanAccount>, Fault>
        ensures replayed { IfOk result (λ found. IfSome found IsReplayed) }
        ensures gives_up { IfErr result (λ fault. fault ≡ Fault.F20) }
    {
        let Some(day) = self.disbursed else {
            return Ok(None);
        };
        let entries = copy_entries(alloc, &self.entries)?;
        let disbursed = mf_account::DisbursedLoan {
            terms,
            principal: self.principal,
            periods: self.periods,
            day,
            entries,
        };
        match LoanAccount::of_entries(alloc, disbursed)? {
            Some(account) => Ok(Some(account)),
            None => Err(Fault::F20),
        }
    }

    /// Its status: that of its stage until it is disbursed, then that of its account.
    pub(crate) fn status(&self, alloc: Global, terms: Terms) -> Result<u16, Fault>
        ensures { IfErr result (λ fault. fault ≡ Fault.F20) }
    {
        match self.account(alloc, terms)? {
            None => Ok(self.status),
            Some(account) => Ok(account.status()),
        }
    }

    /// Adds it to its office's line where its account is active; F20 where the line has as many as an office has at
    /// most.
    pub(crate) fn age(
        &self,
        alloc: Global,
        terms: Terms,
        today: Day,
        line: &mut OfficeLine,
    ) -> Result<(), Fault>
        ensures { IfErr result (λ fault. fault ≡ Fault.F20) }
    {
        let Some(account) = self.account(alloc, terms)? else {
            return Ok(());
        };
        if account.status() != ACTIVE {
            return Ok(());
        }
        if line.loans >= MOST_LOANS {
            return Err(Fault::F20);
        }
        line.add(account.principal_left(), arrears(account.rows(), today));
        Ok(())
    }
}
