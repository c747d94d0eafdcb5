//! The sums of a loan of which something is outstanding, told by its instalments: none of its entries is asked for.

ghost use Rattle.std.specs.Prelude.{◌≡◌, ◌≤◌, true, Some, IfOk, IsOkUnless};
ghost use Rattle.std.specs.List.{list_any};
ghost use Rattle.mf_base.specs.DayText.{last_entered_day};
ghost use Rattle.mf_schedule.specs.Fresh.{IsLoanWithinLimits, fee_at_disbursement, fresh_schedule};
ghost use Rattle.mf_alloc.specs.Sums.{AreWhole, AreWithin, is_open};
ghost use Rattle.mf_account.specs.Balance.{balances_of};
ghost use Rattle.mf_account.specs.Loan.{DisbursedLoan, IsSoundDisbursed, state_of_loan};

use crate::balances::{Balances, book_sums};
use crate::lawful::{can_be_entered, is_loan_within_limits};
use crate::safe::are_owed_within;
use mf_alloc::Instalment;
use mf_base::{Day, Fault};
use mf_catalog::Terms;
use mf_schedule::{disbursement_fee, fresh};
use std::alloc::Global;

/// The fee at the disbursement of a loan, in cents. Its schedule is made only where there is such a charge.
fn fee_at(
    alloc: Global,
    terms: &Terms,
    principal: u64,
    periods: u32,
    day: Day,
) -> Result<u64, Fault>
    requires limits { IsLoanWithinLimits terms.now principal periods }
    requires day { day ≤ last_entered_day }
    ensures fee { IfOk result (λ fee. fee ≡ fee_at_disbursement terms.now principal
        (fresh_schedule terms.now principal periods day)) }
    ensures only { IsOkUnless result Fault.F20 }
{
    if terms.disbursement.is_none() {
        return Ok(0);
    }
    let schedule = fresh(alloc, terms, principal, periods, day)?;
    Ok(disbursement_fee(terms, principal, &schedule))
}

/// The sums of a loan of so many cents over so many periods, disbursed on a day, of whose instalments something is
/// outstanding. Nothing of it is overpaid then, and nothing refunded. None where these can be no loan's: terms or sums
/// outside the limits, or a day that can't be entered. The only error is F20, out of memory.
pub fn open_balances(
    alloc: Global,
    terms: &Terms,
    principal: u64,
    periods: u32,
    day: Day,
    rows: &[Instalment],
) -> Result<Option<Balances>, Fault>
    requires whole { AreWhole rows.now }
    requires apart { AreWithin rows.now }
    requires open { list_any is_open rows.now ≡ true }
    ensures balances { (loan : DisbursedLoan) → IsSoundDisbursed loan → loan.terms ≡ terms.now → loan.principal
        ≡ principal
        → loan.periods ≡ periods → loan.day ≡ day → rows.now ≡ (state_of_loan loan).rows
        → IfOk result (λ found. found ≡ Some (balances_of loan)) }
    ensures only { IsOkUnless result Fault.F20 }
{
    if !is_loan_within_limits(terms, principal, periods) {
        return Ok(None);
    }
    if !can_be_entered(day) {
        return Ok(None);
    }
    if !are_owed_within(rows) {
        return Ok(None);
    }
    let fee = fee_at(alloc, terms, principal, periods, day)?;
    Ok(Some(book_sums(rows, 0, 0, fee)))
}
