//! Amounts of money in whole cents, read and written with two digits behind the point.

ghost use Rattle.std.specs.Prelude.{◌≡◌, ℕ, ◌<◌, IfSome, IfOk, IfErr, string_bytes};
ghost use Rattle.mf_base.specs.declared.fault.Fault.TheVariants.{F20};
ghost use Rattle.mf_base.specs.Money as spec;
ghost use Rattle.mf_base.specs.Money.{IsFraction, IsMoneyText};

use crate::Fault;
use crate::digits::{count_digits, read_two_digits, value_of_digits};
use std::alloc::Global;

/// The greatest amount of money, in cents.
pub const MONEY_LIMIT: u64 = 1_000_000_000_000;

/// The cents that stand after the units: nothing, or a point and one digit or two.
fn read_fraction(text: &[u8]) -> Option<u8>
    ensures some { IfSome result (IsFraction text.now) }
    ensures bound { IfSome result (λ cents. cents < 100) }
    ensures every { (cents : ℕ) → IsFraction text.now cents → result ≡ Some cents }
{
    match text {
        [] => Some(0),
        [b'.', tenths] => read_two_digits(*tenths, b'0'),
        [b'.', tens, ones] => read_two_digits(*tens, *ones),
        _ => None,
    }
}

/// The whole cents that a money text stands for: 1 to 11 digits, then nothing, or a point and one digit or two, up
/// to 10^12 cents. None is for any other text.
pub fn parse_money(text: &[u8]) -> Option<u64>
    ensures some { IfSome result (IsMoneyText text.now) }
    ensures every { (cents : ℕ) → IsMoneyText text.now cents → result ≡ Some cents }
{
    let digits = count_digits(text);
    if digits == 0 || digits > 11 {
        return None;
    }
    let (units, fraction) = text.split_at(digits);
    let cents = 100 * value_of_digits(units) + u64::from(read_fraction(fraction)?);
    if cents <= MONEY_LIMIT {
        Some(cents)
    } else {
        None
    }
}

/// Whole cents as a money text: units, a point and two digits. The only error is `Fault::F20`, out of memory.
pub fn money_text(alloc: Global, cents: u128) -> Result<String, Fault>
    ensures ok { IfOk result (λ text. string_bytes text ≡ spec.money_text cents) }
    ensures err { IfErr result (λ fault. fault ≡ F20) }
{
    let units = cents / 100;
    let rest = (cents % 100) as u8;
    let text = format!(in alloc; "{units}.{rest:02}")?;
    Ok(text)
}
