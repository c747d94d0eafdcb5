//! The limits of amounts, rates, steps and periods.

ghost use Rattle.std.specs.Prelude.{◌≡◌};
ghost use Rattle.mf_catalog.specs.Limits as spec;

use crate::charge::Calc;
use mf_base::{Freq, MONEY_LIMIT};

/// The greatest principal, amount and flat charge: 10^12 cents.
pub const GREATEST_AMOUNT: u64 = MONEY_LIMIT;

/// The greatest percentage of a charge, in hundredths of a percent: the whole of its base.
pub const GREATEST_PERCENTAGE: u64 = 10_000;

/// The greatest annual rate, in hundredths of a percent.
pub const GREATEST_RATE: u32 = 100_000;

/// The longest step between due days that goes by weeks.
pub const MOST_WEEKS: u32 = 52;

/// The longest step between due days that goes by months.
pub const MOST_MONTHS: u32 = 12;

/// The most days of a period, of a year of 360: 52 weeks.
pub const MOST_DAYS: u32 = 364;

/// The most periods of a loan, and so the most instalments of a schedule.
pub const MOST_PERIODS: u32 = 360;

/// The longest grace, of principal or of interest, that a product may name.
pub const MOST_GRACE: u32 = 359;

/// The greatest value of a charge that is computed so: cents where it is flat, else hundredths of a percent.
pub fn greatest_value(calc: Calc) -> u64
    ensures { result ≡ spec.greatest_value calc }
{
    match calc {
        Calc::Flat => GREATEST_AMOUNT,
        Calc::OfAmount | Calc::OfInterest | Calc::OfBoth => GREATEST_PERCENTAGE,
    }
}

/// The longest step from one due day to the next, in weeks or in months.
pub fn longest_step(freq: Freq) -> u32
    ensures { result ≡ spec.longest_step freq }
{
    match freq {
        Freq::Weeks => MOST_WEEKS,
        Freq::Months => MOST_MONTHS,
    }
}
