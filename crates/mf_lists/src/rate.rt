//! The effective yearly rate of a schedule.

ghost use Rattle.std.specs.Prelude.{◌≡◌, ◌-◌, ◌<◌, ◌≤◌, ◌^◌, IfSome, true};
ghost use Rattle.mf_schedule.specs.Fresh.{total_owed};
ghost use Rattle.mf_lists.specs.Rate.{after_days, millionths_asked, is_borne, least_daily_rate};
ghost use Rattle.mf_lists.specs.Rate.{most_daily_rate, most_yearly_rate, yearly_from, yearly_rate};

use mf_base::{Day, half_even};
use mf_schedule::FreshInstalment;

/// The parts of one in which a daily rate is told.
const TRILLION: u128 = 1_000_000_000_000;

/// The parts of a cent in which balances are reckoned.
const MILLION: u128 = 1_000_000;

/// The greatest daily rate that is looked for, in trillionths: 2 percent.
const MOST_DAILY_RATE: u64 = 20_000_000_000;

/// More than one whole comes to in a year, at the greatest daily rate.
const MOST_AFTER_A_YEAR: u128 = 2_000_000_000_000_000;

/// A hundredth of a percent of one whole.
const HUNDREDTH_OF_A_PERCENT: u128 = 100_000_000;

/// What an instalment asks, in millionths of a cent.
fn asked(row: &FreshInstalment) -> u128
    ensures { result ≡ millionths_asked row.now }
{
    MILLION * (row.principal as u128 + row.interest as u128 + row.fees as u128)
}

/// What instalments owe together: principal, interest and fees, in cents.
pub(crate) fn owed_together(rows: &[FreshInstalment]) -> u64
    requires { total_owed rows.now < 2 ^ 54 }
    ensures { result ≡ total_owed rows.now }
{
    let mut owed = 0;
    for row in rows {
        owed += row.principal + row.interest + row.fees;
    }
    owed
}

/// The days from one day to another, 0 where the other isn't later.
fn days_between(day: Day, due: Day) -> u32
    ensures { result ≡ due - day }
{
    u32::try_from(due.days_since(day)).unwrap_or(0)
}

/// A balance with the interest of so many days, or what it has come to once it is this much or more: so it stays small.
fn grown(balance: u128, rate: u64, days: u32, enough: u128) -> u128
    requires rate { rate ≤ most_daily_rate }
    requires balance { balance < 2 ^ 100 }
    requires enough { enough < 2 ^ 80 }
    ensures value { result < enough → result ≡ after_days rate days balance }
    ensures below { result ≤ after_days rate days balance }
{
    let mut balance = balance;
    for _day in 0..days {
        if balance >= enough {
            return balance;
        }
        balance += half_even(balance * rate as u128, TRILLION);
    }
    balance
}

/// Whether what was handed over on a day, in cents, bears these instalments at a daily rate in trillionths. It stops
/// once the balance is as much as all that are still to come.
fn bears(handed: u64, day: Day, rows: &[FreshInstalment], rate: u64) -> bool
    requires rate { rate ≤ most_daily_rate }
    requires owed { total_owed rows.now < 2 ^ 54 }
    ensures { result ≡ is_borne handed day rows.now rate }
{
    let mut balance = MILLION * handed as u128;
    let mut to_come = MILLION * owed_together(rows) as u128;
    let mut day = day;
    for row in rows {
        balance = grown(balance, rate, days_between(day, row.due), to_come);
        if balance >= to_come {
            return true;
        }
        let asked = asked(row);
        if asked > balance {
            return false;
        }
        balance -= asked;
        to_come -= asked;
        day = row.due;
    }
    true
}

/// The least daily rate at which what was handed over bears the instalments, in trillionths, found by halving; the
/// greatest must.
fn least_daily_rate(handed: u64, day: Day, rows: &[FreshInstalment]) -> u64
    requires owed { total_owed rows.now < 2 ^ 54 }
    requires borne { is_borne handed day rows.now most_daily_rate ≡ true }
    ensures value { result ≡ least_daily_rate handed day rows.now }
    ensures within { result ≤ most_daily_rate }
{
    let mut low = 0;
    let mut high = MOST_DAILY_RATE;
    while low < high {
        let middle = low + (high - low) / 2;
        if bears(handed, day, rows, middle) {
            high = middle;
        } else {
            low = middle + 1;
        }
    }
    high
}

/// What a daily rate in trillionths comes to in a year of 365 days, in hundredths of a percent.
fn yearly_from(rate: u64) -> u64
    requires { rate ≤ most_daily_rate }
    ensures value { result ≡ yearly_from rate }
    ensures small { result ≤ most_yearly_rate }
{
    half_even(
        grown(TRILLION, rate, 365, MOST_AFTER_A_YEAR) - TRILLION,
        HUNDREDTH_OF_A_PERCENT,
    ) as u64
}

/// The effective yearly rate, in hundredths of a percent, of a loan of which so many cents are handed over on a day and
/// which these instalments pay back, fees included: the formula of Directive 2008/48/EC, Annex I, by days of the
/// calendar over a year of 365. A borrower knows it as the annual percentage rate (APR), all charges included.
///
/// None is for rates over 137,640.83 percent, and so where something is asked and nothing handed over.
pub fn yearly_rate(handed: u64, day: Day, rows: &[FreshInstalment]) -> Option<u64>
    requires owed { total_owed rows.now < 2 ^ 54 }
    ensures value { result ≡ yearly_rate handed day rows.now }
    ensures small { IfSome result (λ rate. rate ≤ most_yearly_rate) }
{
    if bears(handed, day, rows, MOST_DAILY_RATE) {
        Some(yearly_from(least_daily_rate(handed, day, rows)))
    } else {
        None
    }
}
