//! The three methods by which principal and interest fall on periods.

ghost use Rattle.std.specs.Prelude.{◌≡◌, ◌+◌, ◌*◌, ◌<◌, ◌≤◌, ◌^◌};
ghost use Rattle.mf_catalog.specs.Limits.{most_weeks};
ghost use Rattle.mf_schedule.specs.Fresh.{IsLoanWithinLimits};
ghost use Rattle.mf_schedule.specs.Plan.{balance_of, days_of, interest_of, principal_of};

use crate::fixed::{fixed_amount, interest};
use mf_base::{Freq, half_even, split};
use mf_catalog::{Method, Terms};

/// What the method of a loan settles once for all instalments.
#[derive(Clone, Copy)]
pub(crate) enum Plan {
    /// The interest of the whole term, which is split evenly.
    FlatInterest(u64),
    /// Nothing: interest goes by what is outstanding.
    EqualParts,
    /// Principal and interest of an instalment together.
    FixedAmount(u64),
}

/// The days of a period, of a year of 360.
pub(crate) fn days(terms: &Terms) -> u32
    requires { terms.now.every ≤ most_weeks }
    ensures { result ≡ days_of terms.now }
{
    match terms.freq {
        Freq::Weeks => 7 * terms.every,
        Freq::Months => 30 * terms.every,
    }
}

impl Plan {
    ghost use Rattle.mf_schedule.specs.Settled.{IsPlanOf};

    /// Settles what the method settles once.
    pub(crate) fn new(terms: &Terms, principal: u64, n: u32) -> Plan
        requires { IsLoanWithinLimits terms.now principal n }
        ensures { IsPlanOf terms.now principal n result }
    {
        let days = days(terms);
        match terms.method {
            Method::Flat => {
                let cents = principal as u128 * terms.rate as u128 * days as u128 * n as u128;
                Plan::FlatInterest(half_even(cents, 3600000) as u64)
            }
            Method::EqualPrincipal => Plan::EqualParts,
            Method::Fixed => {
                let periods = n - terms.principal_grace;
                Plan::FixedAmount(fixed_amount(principal, terms.rate, days, periods))
            }
        }
    }

    /// The interest of instalment i, before which the balance is outstanding, and before any grace of interest.
    pub(crate) fn interest(self, terms: &Terms, principal: u64, n: u32, balance: u64, i: u32) -> u64
        requires limits { IsLoanWithinLimits terms.now principal n }
        requires plan { IsPlanOf terms.now principal n self }
        requires first { 1 ≤ i }
        requires last { i ≤ n }
        requires balance { balance ≡ balance_of terms.now principal n i }
        ensures value { result ≡ interest_of terms.now principal n i }
        ensures small { result ≤ 4 * 10 ^ 15 }
    {
        match self {
            Plan::FlatInterest(total) => split(total, n, i),
            Plan::EqualParts | Plan::FixedAmount(_) => interest(balance, terms.rate, days(terms)),
        }
    }

    /// The principal of instalment i, before which the balance is outstanding, and whose interest is given.
    pub(crate) fn principal(
        self,
        terms: &Terms,
        principal: u64,
        n: u32,
        balance: u64,
        interest: u64,
        i: u32,
    ) -> u64
        requires limits { IsLoanWithinLimits terms.now principal n }
        requires plan { IsPlanOf terms.now principal n self }
        requires first { 1 ≤ i }
        requires last { i ≤ n }
        requires balance { balance ≡ balance_of terms.now principal n i }
        requires interest { interest ≡ interest_of terms.now principal n i }
        ensures value { result ≡ principal_of terms.now principal n i }
    {
        let grace = terms.principal_grace;
        if i <= grace {
            return 0;
        }
        match self {
            Plan::FlatInterest(_) | Plan::EqualParts => split(principal, n - grace, i - grace),
            Plan::FixedAmount(amount) => balance.min(amount - interest),
        }
    }
}
