//! The least fixed instalment that pays a loan back in its periods.

ghost use Rattle.std.specs.Prelude.{◌≡◌, ℕ, ◌*◌, ◌<◌, ◌≤◌, ◌^◌, ◌↔◌, IsTrue};
ghost use Rattle.mf_catalog.specs.Limits.{greatest_amount, greatest_rate, most_days};
ghost use Rattle.mf_schedule.specs.Fixed.{interest_on, balance_after, least_amount};

use mf_base::half_even;

/// The interest of a period, in cents: that of `days` days of a year of 360 on a balance in cents, at a rate in
/// hundredths of a percent a year. Half a cent goes to the even one.
pub(crate) fn interest(balance: u64, rate: u32, days: u32) -> u64
    requires balance { balance ≤ greatest_amount }
    requires rate { rate ≤ greatest_rate }
    requires days { days ≤ most_days }
    ensures value { result ≡ interest_on rate days balance }
    ensures small { result ≤ 2 * 10 ^ 13 }
{
    half_even(balance as u128 * rate as u128 * days as u128, 3600000) as u64
}

/// Whether so many instalments of an amount leave nothing of the principal.
fn is_enough(amount: u64, principal: u64, rate: u32, days: u32, n: u32) -> bool
    requires principal { principal ≤ greatest_amount }
    requires rate { rate ≤ greatest_rate }
    requires days { days ≤ most_days }
    requires amount { interest_on rate days principal < amount }
    ensures { IsTrue result ↔ (balance_after rate days amount principal n ≡ 0) }
{
    let mut balance = principal;
    for turn in 0..n {
        balance = (balance + interest(balance, rate, days)).saturating_sub(amount);
    }
    balance == 0
}

/// The least whole amount, in cents, of which n equal instalments of principal and interest leave nothing of the
/// principal. It is found by halving, and takes no memory.
pub fn fixed_amount(principal: u64, rate: u32, days: u32, n: u32) -> u64
    requires some_principal { 1 ≤ principal }
    requires most_principal { principal ≤ greatest_amount }
    requires rate { rate ≤ greatest_rate }
    requires days { days ≤ most_days }
    requires periods { 1 ≤ n }
    ensures enough { balance_after rate days result principal n ≡ 0 }
    ensures least { (amount : ℕ) → balance_after rate days amount principal n ≡ 0 → result ≤ amount }
    ensures value { result ≡ least_amount rate days n principal }
{
    let mut low = interest(principal, rate, days);
    let mut high = principal + low;
    while high - low > 1 {
        let middle = low + (high - low) / 2;
        if is_enough(middle, principal, rate, days, n) {
            high = middle;
        } else {
            low = middle;
        }
    }
    high
}
