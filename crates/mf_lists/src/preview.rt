//! What a loan would be, before it is submitted.

ghost use Rattle.std.specs.Prelude.{◌≡◌, ◌≤◌, ◌⊎◌, true, Ok, Err, IfOk, IfErr, IfSome, IsOkUnless, IsTrue};
ghost use Rattle.std.specs.List.{AllByRecursion};
ghost use Rattle.mf_base.specs.DayText.{last_entered_day};
ghost use Rattle.mf_base.specs.declared.fault.Fault.{Fault};
ghost use Rattle.mf_base.specs.declared.fault.Fault.TheVariants.{F20};
ghost use Rattle.mf_catalog.specs.Limits.{AreTermsWithinLimits, IsChargeWithinLimits};
ghost use Rattle.mf_catalog.specs.Product.{AreMembersWithinLimits, charge_at, charges_there, lending, limits_agree};
ghost use Rattle.mf_schedule.specs.Fresh.{IsLoanWithinLimits};
ghost use Rattle.mf_lists.specs.Preview.{preview_by, preview_of};

use crate::rate::{owed_together, yearly_rate};
use mf_base::{Day, Fault};
use mf_catalog::{
    ChargeDef, GREATEST_AMOUNT, GREATEST_RATE, MOST_PERIODS, Product, Terms, greatest_value,
    longest_step, terms_for,
};
use mf_schedule::{FreshInstalment, disbursement_fee, fresh};
use mf_statement::Listing;
use std::alloc::Global;

/// What submitting a loan and paying it out on a day would give. Amounts are whole cents.
#[derive(Drop)]
pub struct LoanPreview {
    /// What falls due on which day: principal, interest and the fee of each instalment.
    pub instalments: Listing<FreshInstalment>,
    /// The fee that is kept when the loan is paid out.
    pub kept: u64,
    /// What is handed over: the principal less that fee, and nothing where the fee is as much.
    pub handed_over: u64,
    /// What all instalments ask.
    pub owed: u64,
    /// The effective yearly rate in hundredths of a percent, all charges included; None where it is over 137,640.83
    /// percent.
    pub rate: Option<u64>,
}

/// What a loan of so many cents over n periods would be on these terms, paid out on a day. The only error is F20, out
/// of memory.
fn preview_by(
    alloc: Global,
    terms: &Terms,
    principal: u64,
    n: u32,
    day: Day,
) -> Result<LoanPreview, Fault>
    requires limits { IsLoanWithinLimits terms.now principal n }
    requires day { day ≤ last_entered_day }
    ensures ok { IfOk result (λ shown. shown ≡ preview_by terms.now principal n day) }
    ensures err { IsOkUnless result F20 }
{
    let rows = fresh(alloc, terms, principal, n, day)?;
    let kept = disbursement_fee(terms, principal, &rows);
    let handed_over = principal.saturating_sub(kept);
    let owed = owed_together(&rows);
    let rate = yearly_rate(handed_over, day, &rows);
    Ok(LoanPreview {
        instalments: Listing::new(rows),
        kept,
        handed_over,
        owed,
        rate,
    })
}

/// Whether a charge, where there is one, has a value within its limits.
fn is_charge_within_limits(charge: &Option<ChargeDef>) -> bool
    ensures within { IsTrue result → IfSome charge.now IsChargeWithinLimits }
    ensures exact { IfSome charge.now IsChargeWithinLimits → IsTrue result }
{
    match charge {
        None => true,
        Some(charge) => charge.value >= 1 && charge.value <= greatest_value(charge.calc),
    }
}

/// Whether terms are within the limits.
fn are_terms_within_limits(terms: &Terms) -> bool
    ensures within { IsTrue result → AreTermsWithinLimits terms.now }
    ensures exact { AreTermsWithinLimits terms.now → IsTrue result }
{
    terms.rate <= GREATEST_RATE
        && terms.every >= 1
        && terms.every <= longest_step(terms.freq)
        && is_charge_within_limits(&terms.disbursement)
        && is_charge_within_limits(&terms.instalment)
        && is_charge_within_limits(&terms.overdue)
}

/// Whether a loan of so many cents over n periods on these terms is within the limits.
pub fn is_loan_within_limits(terms: &Terms, principal: u64, n: u32) -> bool
    ensures within { IsTrue result → IsLoanWithinLimits terms.now principal n }
    ensures exact { IsLoanWithinLimits terms.now principal n → IsTrue result }
{
    are_terms_within_limits(terms)
        && principal >= 1
        && principal <= GREATEST_AMOUNT
        && n <= MOST_PERIODS
        && terms.principal_grace < n
        && terms.interest_grace < n
}

/// What a loan of so many cents over n periods would be on terms that were read, paid out on a day. The only error is
/// F20: out of memory, or terms outside the limits, which no product gives.
pub fn preview_on_terms(
    alloc: Global,
    terms: &Terms,
    principal: u64,
    n: u32,
    day: Day,
) -> Result<LoanPreview, Fault>
    requires day { day ≤ last_entered_day }
    ensures ok { IfOk result (λ shown. shown ≡ preview_by terms.now principal n day) }
    ensures err { IsOkUnless result F20 }
{
    if is_loan_within_limits(terms, principal, n) {
        preview_by(alloc, terms, principal, n, day)
    } else {
        Err(Fault::F20)
    }
}

/// What a loan of a product would be, of so many cents over n periods, paid out on a day. F7 where the product is
/// retired, then F8 outside its limits, as when it is submitted; then F20 when out of memory. The charges hold those
/// that the product names.
pub fn preview_loan(
    alloc: Global,
    product: &Product,
    charges: &[ChargeDef],
    principal: u64,
    n: u32,
    day: Day,
) -> Result<LoanPreview, Fault>
    requires named { charges_there (charge_at charges.now) product.now.members ≡ true }
    requires charges { AllByRecursion IsChargeWithinLimits charges.now }
    requires members { AreMembersWithinLimits product.now.members }
    requires agree { limits_agree product.now.members ≡ true }
    requires day { day ≤ last_entered_day }
    ensures ok { IfOk result (λ shown. preview_of (charge_at charges.now) product.now principal n day ≡ Ok shown) }
    ensures refused { (fault : Fault) → lending product.now principal n ≡ Err fault → result ≡ Err fault }
    ensures err { IfErr result (λ fault. (lending product.now principal n ≡ Err fault)
        ⊎ ((lending product.now principal n ≡ Ok tt) × (fault ≡ F20))) }
{
    let terms = terms_for(product, charges, principal, n)?;
    preview_by(alloc, &terms, principal, n, day)
}
