//! What charges that are entered come to, by the fresh schedule.

ghost use Rattle.std.specs.Prelude.{◌≡◌, ◌-◌, ◌<◌, ◌≤◌, ◌^◌, IfSome, length, slice_get};
ghost use Rattle.std.specs.List.{position};
ghost use Rattle.mf_catalog.specs.Limits.{greatest_amount, IsChargeWithinLimits};
ghost use Rattle.mf_schedule.specs.Fresh.{total_interest, total_owed};
ghost use Rattle.mf_account.specs.Charges.{fee_on, instalment_from, is_due_from, penalty_on};

use mf_base::Day;
use mf_catalog::{ChargeDef, ChargeKind, charge_amount};
use mf_schedule::FreshInstalment;

/// The place of the first instalment that is due on a day or after it.
fn place_due(schedule: &[FreshInstalment], day: Day) -> Option<usize>
    ensures { result ≡ position (is_due_from day) schedule.now }
{
    schedule.iter().position(|instalment| day <= instalment.due)
}

/// The number of the first instalment that is due on a day or after it, else of the last.
pub(crate) fn instalment_due(schedule: &[FreshInstalment], day: Day) -> u32
    requires few { length schedule.now ≤ 360 }
    ensures { result ≡ instalment_from (length schedule.now) day schedule.now }
{
    match place_due(schedule, day) {
        Some(at) => at as u32 + 1,
        None => schedule.len() as u32,
    }
}

/// What a charge comes to as a fee: on the principal and on the interest of the whole schedule. 0 where the charge is
/// of another kind than those that fall due on a day of their own.
pub(crate) fn fee(charge: &ChargeDef, principal: u64, schedule: &[FreshInstalment]) -> u64
    requires value { IsChargeWithinLimits charge.now }
    requires principal { principal ≤ greatest_amount }
    requires interest { total_interest schedule.now < 2 ^ 62 }
    ensures { result ≡ fee_on charge.now principal schedule.now }
{
    if charge.kind != ChargeKind::DueDate {
        return 0;
    }
    let interest: u64 = schedule.iter().map(|instalment| instalment.interest).sum();
    charge_amount(charge, principal, interest)
}

/// What an overdue charge comes to on an instalment as it was scheduled. 0 where there is no such charge or no such
/// instalment.
pub(crate) fn penalty(
    charge: &Option<ChargeDef>,
    schedule: &[FreshInstalment],
    instalment: u32,
) -> u64
    requires numbered { 1 ≤ instalment }
    requires value { IfSome charge.now IsChargeWithinLimits }
    requires owed { total_owed schedule.now < 2 ^ 62 }
    ensures { result ≡ penalty_on charge.now (slice_get schedule.now (instalment - 1)) }
{
    match (charge, schedule.get((instalment - 1) as usize)) {
        (Some(charge), Some(scheduled)) => {
            charge_amount(charge, scheduled.principal, scheduled.interest)
        }
        _ => 0,
    }
}
