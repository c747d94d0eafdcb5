//! Whether a row is that of a product with its number, over the charges that there are.

ghost use Rattle.std.specs.Prelude.{◌≡◌, ℕ, pos, ◌≤◌, ◌↔◌, IsTrue, length, option_copied};
ghost use Rattle.mf_base.specs.declared.day.Freq.{Freq};
ghost use Rattle.mf_catalog.specs.declared.limits.TheConstants.{MOST_PERIODS};
ghost use Rattle.mf_catalog.specs.Limits.{longest_step};
ghost use Rattle.mf_catalog.specs.Product.{AreMembersWithinLimits, limits_agree, kinds_right, is_of_kind};
ghost use Rattle.mf_model.specs.Institution.{Catalogue, ListedProduct, charge_in, item_numbered};
ghost use Rattle.mf_model.specs.Sound.{IsSoundOffer};
ghost use Rattle.mf_store_values.specs.Flat.{charge_as, product_as, numbered_from};
ghost use Rattle.mf_base.specs.Choices.{frequency_number};
ghost use Rattle.mf_store_sound.specs.Charges.{HasRowOfKind};
ghost use Rattle.mf_store_sound.specs.Stored.{IsRowOf};

use crate::amounts::is_amount;
use crate::numbered::NumberedRow;
use mf_base::{Choice, Freq};
use mf_catalog::{ChargeKind, GREATEST_RATE, MOST_GRACE, MOST_PERIODS, longest_step};
use mf_model::is_name;
use mf_store_schema::{ChargeRow, ProductRow};
use mf_store_values::{product_columns, row_numbered};

/// Whether each number that stands for a choice is that of one, and no amount is negative.
fn has_choices(row: &ProductRow) -> bool
    ensures { IsTrue result ↔ ((p : ListedProduct) × (product_as row.now.number p ≡ row.now)) }
{
    product_columns(row).is_some()
}

/// Whether a step between due days is one that the frequency of this number allows.
pub fn is_step(frequency: u32, every: u32) -> bool
    ensures within { (freq : Freq) → frequency_number freq ≡ frequency →
        IsTrue result ↔ ((1 ≤ every) × (every ≤ longest_step freq)) }
    ensures there { IsTrue result → (freq : Freq) × (frequency_number freq ≡ frequency) }
{
    match Freq::from_number(frequency) {
        Some(freq) => every >= 1 && every <= longest_step(freq),
        None => false,
    }
}

/// Whether a number of periods is from 1 to the most that a loan has.
pub fn are_periods(periods: u32) -> bool
    ensures { IsTrue result ↔ ((1 ≤ periods) × (periods ≤ MOST_PERIODS)) }
{
    periods >= 1 && periods <= MOST_PERIODS
}

/// Whether the members of the row's product lie in their ranges.
fn is_within_limits(row: &ProductRow) -> bool
    ensures { (p : ListedProduct) → product_as row.now.number p ≡ row.now → IsTrue result
        ↔ AreMembersWithinLimits p.members }
{
    row.rate <= GREATEST_RATE
        && is_step(row.frequency, row.every)
        && row.principal_grace <= MOST_GRACE
        && row.interest_grace <= MOST_GRACE
        && is_amount(row.min_principal)
        && is_amount(row.max_principal)
        && are_periods(row.min_periods)
        && are_periods(row.max_periods)
}

/// Whether the limits of the row's product agree.
fn do_limits_agree(row: &ProductRow) -> bool
    ensures { (p : ListedProduct) → product_as row.now.number p ≡ row.now → result ≡ limits_agree p.members }
{
    row.min_principal <= row.max_principal
        && row.min_periods <= row.max_periods
        && row.principal_grace < row.min_periods
        && row.interest_grace < row.min_periods
}

/// Whether the charge that is named, if one is, exists and is of this kind.
pub fn is_of_kind(charges: &[ChargeRow], kind: ChargeKind, named: Option<u32>) -> bool
    ensures rows { IsTrue result ↔ HasRowOfKind charges.now kind named }
    ensures catalogue { (k : Catalogue) → numbered_from charge_as 1 k.charges ≡ charges.now →
        result ≡ is_of_kind (charge_in k) kind named }
{
    let Some(number) = named else {
        return true;
    };
    match row_numbered(charges, number) {
        Some(charge) => charge.kind == kind.number(),
        None => false,
    }
}

/// Whether the charges that the row's product names exist and are of the right kinds.
fn are_kinds_right(charges: &[ChargeRow], row: &ProductRow) -> bool
    ensures { (k : Catalogue) → numbered_from charge_as 1 k.charges ≡ charges.now → (p : ListedProduct) →
        product_as row.now.number p ≡ row.now →
        result ≡ kinds_right (charge_in k) p.members }
{
    is_of_kind(charges, ChargeKind::Disbursement, row.disbursement_charge)
        && is_of_kind(charges, ChargeKind::Instalment, row.instalment_charge)
        && is_of_kind(charges, ChargeKind::Overdue, row.overdue_charge)
}

/// The row of a product over these charges.
impl<'a> NumberedRow<&'a [ChargeRow]> for ProductRow {
    ghost Setting = { λ charges. (k : Catalogue) × (numbered_from charge_as 1 k.charges ≡ charges.now) };

    ghost IsNumbered = { λ charges of number row. IsRowOf product_as (IsSoundOffer (charge_in of.0)) number row };

    fn is_numbered(&self, charges: &'a [ChargeRow], number: u32) -> bool {
        self.number == number
            && has_choices(self)
            && is_name(self.name.as_str())
            && is_within_limits(self)
            && do_limits_agree(self)
            && are_kinds_right(charges, self)
    }
}
