//! An office's line of the report of arrears.

ghost use Rattle.std.specs.Prelude.{◌≡◌, ℕ, ◌+◌, ◌*◌, ◌<◌, ◌≤◌, ◌^◌, List, [], ◌∷◌, ◌++◌};
ghost use Rattle.mf_arrears.specs.Line.{OfficeLine, IsLine, AgedLoan, line_of_loans, with_loan, hundredths_of};
ghost use Rattle.mf_arrears.specs.Line.{par30_of};

use crate::ageing::class;
use mf_base::half_even;
use mf_office::OfficeNo;
use std::marker::Model;

/// A class of days overdue.
#[derive(Clone, Copy, PartialEq, Eq)]
pub enum Class {
    /// Not overdue.
    C0,
    /// 1 to 30 days.
    C1To30,
    /// 31 to 60 days.
    C31To60,
    /// 61 to 90 days.
    C61To90,
    /// Over 90 days.
    Over90,
}

/// An office's active loans: how many there are, and their outstanding principal in whole cents, in all and by class.
/// Each sum is at most 10^12 times the loans, and the four classes are together at most the sum of all.
#[derive(Clone, Copy, PartialEq, Eq)]
pub struct OfficeLine {
    pub office: OfficeNo,
    pub loans: u64,
    pub outstanding: u128,
    pub c1_30: u128,
    pub c31_60: u128,
    pub c61_90: u128,
    pub over_90: u128,
}

impl Model for OfficeLine {
    ghost Value = { OfficeLine };

    ghost view = { λ l. record {
      office = l.office;
      loans = l.loans;
      outstanding = l.outstanding;
      c1_30 = l.c1_30;
      c31_60 = l.c31_60;
      c61_90 = l.c61_90;
      over_90 = l.over_90;
    } };

    ghost invariant = { λ l. IsLine l.loans l.outstanding l.c1_30 l.c31_60 l.c61_90 l.over_90 };

    ghost inverse = { λ l. record {
      office = l.office;
      loans = l.loans;
      outstanding = l.outstanding;
      c1_30 = l.c1_30;
      c31_60 = l.c31_60;
      c61_90 = l.c61_90;
      over_90 = l.over_90;
    } };
}

impl OfficeLine {
    /// An office without active loans.
    pub fn new(office: OfficeNo) -> Self
        ensures { result ≡ line_of_loans office [] }
    {
        OfficeLine {
            office,
            loans: 0,
            outstanding: 0,
            c1_30: 0,
            c31_60: 0,
            c61_90: 0,
            over_90: 0,
        }
    }

    /// Adds an active loan, by its outstanding principal in whole cents and its days overdue.
    pub fn add(&mut self, principal: u64, days: i64)
        requires principal { principal ≤ 10 ^ 12 }
        requires loans { self.old.loans < 10 ^ 10 }
        ensures value { self.new ≡ with_loan self.old principal days }
        ensures line { (office : ℕ) (loans : List AgedLoan) → self.old ≡ line_of_loans office loans
            → self.new ≡ line_of_loans office (loans ++ record { principal = principal; days = days } ∷ []) }
    {
        let principal = principal as u128;
        self.loans += 1;
        self.outstanding += principal;
        match class(days) {
            Class::C0 => {}
            Class::C1To30 => self.c1_30 += principal,
            Class::C31To60 => self.c31_60 += principal,
            Class::C61To90 => self.c61_90 += principal,
            Class::Over90 => self.over_90 += principal,
        }
    }

    /// The portfolio at risk: the part of the outstanding principal that is more than 30 days overdue, in hundredths
    /// of a percent, and 0 where nothing is outstanding.
    pub fn par30(&self) -> u128
        ensures { result ≡ par30_of self.now }
    {
        let (loans, outstanding) = (self.loans, self.outstanding);
        let risk = self.c31_60 + self.c61_90 + self.over_90;
        part_at_risk(loans, outstanding, risk)
    }
}

/// The part of `outstanding` that `risk` is, in hundredths of a percent; 0 where nothing is outstanding. `loans` only
/// bounds the sums.
pub(crate) fn part_at_risk(loans: u64, outstanding: u128, risk: u128) -> u128
    requires most { outstanding ≤ 10 ^ 12 * loans }
    requires part { risk ≤ outstanding }
    ensures { result ≡ hundredths_of outstanding risk }
{
    if outstanding == 0 {
        return 0;
    }
    half_even(10000 * risk, outstanding)
}
