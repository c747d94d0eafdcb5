//! An office's line from the instalments of its loans, which come loan by loan. None of them is held: of the loan that
//! is read, what is outstanding of its principal and the earliest due day are.

ghost use Rattle.std.specs.Prelude.{◌≡◌, ◌⊎◌, ℕ, ◌+◌, ◌^◌, ◌<◌, ◌≤◌, List, ◌++◌, OnOk, OnErr};
ghost use Rattle.mf_alloc.specs.Sums.{open_at};
ghost use Rattle.mf_arrears.specs.Line.{AgedLoan, line_of_loans};
ghost use Rattle.mf_arrears.specs.Folding.{LoanSoFar, aged_by, nothing_of, with_row, Progress, step};
ghost use Rattle.mf_arrears.specs.Folding.{IsLow, IsSoFar};

use crate::ageing::{days_past, earlier};
use crate::line::OfficeLine;
use crate::report::MOST_LOANS;
use mf_alloc::{Instalment, Portion};
use mf_base::Day;
use mf_catalog::GREATEST_AMOUNT;
use std::marker::Model;

/// The instalments come to more than a line sums.
#[derive(Clone, Copy, PartialEq, Eq, Debug)]
pub struct TooMuch;

/// What is read of a loan: its number, what is outstanding of its principal in cents, and the earliest due day of an
/// instalment with something outstanding.
#[derive(Clone, Copy)]
pub struct LoanSoFar {
    loan: u32,
    principal: u64,
    due: Option<Day>,
}

impl Model for LoanSoFar {
    ghost Value = { LoanSoFar };

    ghost view = { λ read. record { loan = read.loan; principal = read.principal; due = read.due } };

    ghost inverse = { λ read. record { loan = read.loan; principal = read.principal; due = read.due } };
}

impl LoanSoFar {
    /// Nothing of a loan with this number.
    pub fn new(loan: u32) -> LoanSoFar
        ensures { result ≡ nothing_of loan }
    {
        LoanSoFar {
            loan,
            principal: 0,
            due: None,
        }
    }

    /// Takes in an instalment of this loan.
    fn add(&mut self, row: Instalment) -> Result<(), TooMuch>
        ensures value { OnOk result (self.new ≡ with_row self.old row) }
        ensures too_much { OnErr result (2 ^ 64 ≤ self.old.principal + open_at row 3) }
    {
        let principal = row.outstanding(Portion::Principal);
        let Some(sum) = self.principal.checked_add(principal) else {
            return Err(TooMuch);
        };
        self.principal = sum;
        if row.is_open() {
            self.due = earlier(self.due, row.due);
        }
        Ok(())
    }

    /// Adds the loan to its office's line, where something is outstanding. At an error the line says nothing.
    pub fn count(&self, today: Day, line: &mut OfficeLine) -> Result<(), TooMuch>
        ensures line { OnOk result ((office : ℕ) (loans : List AgedLoan) → line.old ≡ line_of_loans office loans
            → line.new ≡ line_of_loans office (loans ++ aged_by today self.now.principal self.now.due)) }
        ensures too_much { OnErr result ((10 ^ 12 < self.now.principal) ⊎ (10 ^ 10 ≤ line.old.loans)) }
    {
        let Some(due) = self.due else {
            return Ok(());
        };
        if self.principal > GREATEST_AMOUNT || line.loans >= MOST_LOANS {
            return Err(TooMuch);
        }
        line.add(self.principal, days_past(Some(due), today));
        Ok(())
    }

    /// Takes in an instalment with the number of its loan: of this loan, or the first of the next, before which this
    /// one is added to its office's line. At an error both say nothing.
    pub fn take(
        &mut self,
        found: (u32, Instalment),
        today: Day,
        line: &mut OfficeLine,
    ) -> Result<(), TooMuch>
        ensures value { OnOk result ((office : ℕ) (p : Progress) → IsSoFar office p self.old line.old
            → IsSoFar office (step today p found) self.new line.new) }
        ensures too_much { OnErr result ((office : ℕ) (p : Progress) → IsSoFar office p self.old line.old → IsLow p
            → IsLow (step today p found) → ⊥) }
    {
        let (loan, row) = found;
        if loan != self.loan {
            self.count(today, line)?;
            *self = LoanSoFar::new(loan);
        }
        self.add(row)
    }
}
