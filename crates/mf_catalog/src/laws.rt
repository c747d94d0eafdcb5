//! Laws of products and terms. Each function does nothing: its contract is the law.

ghost use Rattle.std.specs.Prelude.{◌≡◌, ◌<◌, ◌≤◌, ℕ, List, true};
ghost use Rattle.std.specs.List.{AllByRecursion};
ghost use Rattle.mf_catalog.specs.declared.charge.ChargeDef.{ChargeDef};
ghost use Rattle.mf_catalog.specs.declared.product.ProductMembers.{ProductMembers};
ghost use Rattle.mf_catalog.specs.Limits.{greatest_amount, greatest_percentage, greatest_rate, most_weeks, most_months};
ghost use Rattle.mf_catalog.specs.Limits.{most_days, most_periods, most_grace, IsChargeWithinLimits};
ghost use Rattle.mf_catalog.specs.Limits.{AreTermsWithinLimits};
ghost use Rattle.mf_catalog.specs.Product.{AreMembersWithinLimits, charge_at, limits_agree, allows, terms_of};

use crate::limits::{
    GREATEST_AMOUNT, GREATEST_PERCENTAGE, GREATEST_RATE, MOST_DAYS, MOST_GRACE, MOST_MONTHS,
    MOST_PERIODS, MOST_WEEKS,
};

/// Each limit of the code is the number that is stated for it.
pub fn limits_are_as_stated()
    ensures amount { GREATEST_AMOUNT ≡ greatest_amount }
    ensures percentage { GREATEST_PERCENTAGE ≡ greatest_percentage }
    ensures rate { GREATEST_RATE ≡ greatest_rate }
    ensures weeks { MOST_WEEKS ≡ most_weeks }
    ensures months { MOST_MONTHS ≡ most_months }
    ensures days { MOST_DAYS ≡ most_days }
    ensures periods { MOST_PERIODS ≡ most_periods }
    ensures grace { MOST_GRACE ≡ most_grace }
{}

/// The terms that a product gives lie within the limits of terms where its members and its charges lie within theirs,
/// and a loan that it allows has a principal and periods within the limits, and more periods than either grace.
pub fn terms_within_limits()
    ensures terms { (charges : List ChargeDef) (p : ProductMembers) → AreMembersWithinLimits p
        → AllByRecursion IsChargeWithinLimits charges →
        AreTermsWithinLimits (terms_of (charge_at charges) p) }
    ensures graces { (p : ProductMembers) (principal n : ℕ) → limits_agree p ≡ true → allows p principal n ≡ true →
        (p.principal_grace < n) × (p.interest_grace < n) }
    ensures loan { (p : ProductMembers) (principal n : ℕ) → AreMembersWithinLimits p → allows p principal n ≡ true →
        (1 ≤ principal) × (principal ≤ greatest_amount) × (1 ≤ n) × (n ≤ most_periods) }
{}
