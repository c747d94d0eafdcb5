//! Rows of products: what is wrong with them.

ghost use Rattle.std.specs.Prelude.{◌↔◌, IsTrue};
ghost use Rattle.mf_store_values.specs.Flat.{flag_number};
ghost use Rattle.mf_store_audit.specs.Catalogue.{BreaksProduct, IsNoNumber};

use crate::charges::{is_no_name, is_none};
use crate::finding::ProductFlaw;
use crate::keys::is_next;
use crate::places::Row;
use mf_base::{Fault, Freq};
use mf_catalog::{ChargeKind, GREATEST_RATE, MOST_GRACE, Method, StrategyName};
use mf_model::MOST_IN_CATALOGUE;
use mf_store_schema::{ChargeRow, ProductRow};
use mf_store_sound::{are_periods, is_amount, is_of_kind, is_step};
use mf_store_values::flag_from;

/// Whether a number is neither 0 nor 1.
pub(crate) fn is_no_flag(number: u32) -> bool
    ensures { IsTrue result ↔ IsNoNumber flag_number number }
{
    flag_from(number).is_none()
}

/// A row of a product over these charges.
impl<'a> Row<&'a [ChargeRow]> for ProductRow {
    type Flaw = ProductFlaw;

    ghost Breaks = { λ charges flaw before row. BreaksProduct charges.now flaw before row };

    fn breaks(
        &self,
        charges: &'a [ChargeRow],
        before: Option<&Self>,
        flaw: ProductFlaw,
    ) -> Result<bool, Fault> {
        match flaw {
            ProductFlaw::Number => Ok(!is_next(before, self)),
            ProductFlaw::Limit => Ok(self.number > MOST_IN_CATALOGUE),
            ProductFlaw::Name => Ok(is_no_name(&self.name)),
            ProductFlaw::Method => Ok(is_none::<Method>(self.method)),
            ProductFlaw::Frequency => Ok(is_none::<Freq>(self.frequency)),
            ProductFlaw::Strategy => Ok(is_none::<StrategyName>(self.strategy)),
            ProductFlaw::Retired => Ok(is_no_flag(self.retired)),
            ProductFlaw::Rate => Ok(self.rate > GREATEST_RATE),
            ProductFlaw::Every => Ok(!is_step(self.frequency, self.every)),
            ProductFlaw::PrincipalGrace => Ok(self.principal_grace > MOST_GRACE),
            ProductFlaw::InterestGrace => Ok(self.interest_grace > MOST_GRACE),
            ProductFlaw::MinPrincipal => Ok(!is_amount(self.min_principal)),
            ProductFlaw::MaxPrincipal => Ok(!is_amount(self.max_principal)),
            ProductFlaw::MinPeriods => Ok(!are_periods(self.min_periods)),
            ProductFlaw::MaxPeriods => Ok(!are_periods(self.max_periods)),
            ProductFlaw::PrincipalOrder => Ok(self.min_principal > self.max_principal),
            ProductFlaw::PeriodsOrder => Ok(self.min_periods > self.max_periods),
            ProductFlaw::PrincipalGraceOrder => Ok(self.principal_grace >= self.min_periods),
            ProductFlaw::InterestGraceOrder => Ok(self.interest_grace >= self.min_periods),
            ProductFlaw::DisbursementCharge => {
                Ok(!is_of_kind(charges, ChargeKind::Disbursement, self.disbursement_charge))
            }
            ProductFlaw::InstalmentCharge => {
                Ok(!is_of_kind(charges, ChargeKind::Instalment, self.instalment_charge))
            }
            ProductFlaw::OverdueCharge => {
                Ok(!is_of_kind(charges, ChargeKind::Overdue, self.overdue_charge))
            }
        }
    }
}
