//! The fresh schedule of a loan, and the fee at its disbursement.

ghost use Rattle.std.specs.Prelude.{◌≡◌, ◌<◌, ◌≤◌, ◌^◌, IfOk, IfSome, IsOkUnless, map, sum, vec_len};
ghost use Rattle.std.specs.List.{range_with_len};
ghost use Rattle.mf_base.specs.DayText.{last_entered_day};
ghost use Rattle.mf_schedule.specs.Fresh.{IsLoanWithinLimits, due_day_of, fee_at_disbursement, fresh_schedule};
ghost use Rattle.mf_schedule.specs.Fresh.{total_interest, total_owed, total_principal};
ghost use Rattle.mf_schedule.specs.Plan.{interest_of};
ghost use Rattle.mf_catalog.specs.Limits.{greatest_amount, most_periods, most_weeks, AreTermsWithinLimits};
ghost use Rattle.mf_catalog.specs.Limits.{IsChargeWithinLimits};
ghost use Rattle.mf_catalog.specs.Charge.{amount_of_any};

use crate::instalment::FreshInstalment;
use crate::plan::Plan;
use mf_base::{Day, Fault};
use mf_catalog::{ChargeDef, Terms, charge_amount};
use std::alloc::Global;
use std::mem;

/// Due day i, always counted from the day of disbursement.
fn due_day(terms: &Terms, day: Day, i: u32) -> Day
    requires day { day ≤ last_entered_day }
    requires every { terms.now.every ≤ most_weeks }
    requires i { i ≤ most_periods }
    ensures { result ≡ due_day_of terms.now day i }
{
    day.after(terms.freq, terms.every * i)
}

/// What a charge comes to, 0 where there is none.
fn amount_of_charge(charge: &Option<ChargeDef>, amount: u64, interest: u64) -> u64
    requires limits { IfSome charge.now IsChargeWithinLimits }
    requires amount { amount ≤ greatest_amount }
    requires interest { interest < 2 ^ 62 }
    ensures { result ≡ amount_of_any charge.now amount interest }
{
    match charge {
        Some(charge) => charge_amount(charge, amount, interest),
        None => 0,
    }
}

/// The schedule of a loan of so many cents over n periods, disbursed on a day: its instalments in order, before
/// anything is paid. The parts of the principal add up to the principal, and grace of interest changes when the
/// interest falls due and not how much.
///
/// The only error is F20, out of memory.
pub fn fresh(
    alloc: Global,
    terms: &Terms,
    principal: u64,
    n: u32,
    day: Day,
) -> Result<Vec<FreshInstalment>, Fault>
    requires limits { IsLoanWithinLimits terms.now principal n }
    requires day { day ≤ last_entered_day }
    ensures rows { IfOk result (λ rows. rows.items ≡ fresh_schedule terms.now principal n day) }
    ensures count { IfOk result (λ rows. vec_len rows ≡ n) }
    ensures all_principal { IfOk result (λ rows. total_principal rows.items ≡ principal) }
    ensures all_interest { IfOk result (λ rows. total_interest rows.items ≡ sum (map (interest_of terms.now principal n)
        (range_with_len 1 n))) }
    ensures little_interest { IfOk result (λ rows. total_interest rows.items < 2 ^ 53) }
    ensures little_owed { IfOk result (λ rows. total_owed rows.items < 2 ^ 54) }
    ensures memory { IsOkUnless result Fault.F20 }
{
    let plan = Plan::new(terms, principal, n);
    let mut rows = Vec::with_capacity(alloc, n as usize)?;
    let mut balance = principal;
    // interest of the instalments in grace, which the first one after it takes
    let mut held = 0;
    for i in 1..n + 1 {
        let interest = plan.interest(terms, principal, n, balance, i);
        let part = plan.principal(terms, principal, n, balance, interest, i);
        balance -= part;
        held += interest;
        let interest = if i <= terms.interest_grace {
            0
        } else {
            mem::replace(&mut held, 0)
        };
        rows.push(FreshInstalment {
            due: due_day(terms, day, i),
            principal: part,
            interest,
            fees: amount_of_charge(&terms.instalment, part, interest),
        })?;
    }
    Ok(rows)
}

/// The charge that is taken at disbursement: on the principal, and on the interest of all instalments.
pub fn disbursement_fee(terms: &Terms, principal: u64, rows: &[FreshInstalment]) -> u64
    requires limits { AreTermsWithinLimits terms.now }
    requires principal { principal ≤ greatest_amount }
    requires interest { total_interest rows.now < 2 ^ 62 }
    ensures { result ≡ fee_at_disbursement terms.now principal rows.now }
{
    let interest: u64 = rows.iter().map(|row| row.interest).sum();
    amount_of_charge(&terms.disbursement, principal, interest)
}
