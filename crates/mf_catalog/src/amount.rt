//! What a charge comes to on a principal and its interest.

ghost use Rattle.std.specs.Prelude.{◌≡◌, ◌*◌, ◌<◌, ◌≤◌, ◌^◌};
ghost use Rattle.mf_base.specs.Rounding.{half_even};
ghost use Rattle.mf_catalog.specs.Charge.{amount_of, base_of};
ghost use Rattle.mf_catalog.specs.Limits.{IsChargeWithinLimits};

use crate::charge::{Calc, ChargeDef};
use mf_base::half_even;

/// What a charge comes to in whole cents: its value where it is flat, else that percentage of the amount, of the
/// interest or of both together, rounded to the nearest cent, a half to the even one.
pub fn charge_amount(charge: &ChargeDef, amount: u64, interest: u64) -> u64
    requires value { IsChargeWithinLimits charge.now }
    requires base { base_of charge.now.calc amount interest < 2 ^ 63 }
    ensures { result ≡ amount_of charge.now amount interest }
{
    match charge.calc {
        Calc::Flat => charge.value,
        Calc::OfAmount => percentage(amount, charge.value),
        Calc::OfInterest => percentage(interest, charge.value),
        Calc::OfBoth => percentage(amount + interest, charge.value),
    }
}

/// So many hundredths of a percent of a base.
fn percentage(base: u64, value: u64) -> u64
    requires { value ≤ 10000 }
    ensures { result ≡ half_even (base * value) 10000 }
{
    half_even(base as u128 * value as u128, 10000) as u64
}
