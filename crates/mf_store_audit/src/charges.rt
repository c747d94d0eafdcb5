//! Rows of charges: what is wrong with them.

ghost use Rattle.std.specs.Prelude.{◌≡◌, ◌↔◌, IsTrue, ℕ, pos};
ghost use Rattle.mf_catalog.specs.Names.{calc_number};
ghost use Rattle.mf_catalog.specs.declared.charge.Calc.{Calc};
ghost use Rattle.mf_model.specs.Sound.{IsName, IsValue};
ghost use Rattle.mf_store_audit.specs.Catalogue.{BreaksCharge, IsNoNumber};

use crate::finding::ChargeFlaw;
use crate::keys::is_next;
use crate::places::Row;
use mf_base::{Choice, Fault};
use mf_catalog::{Calc, ChargeKind};
use mf_model::{MOST_IN_CATALOGUE, is_name};
use mf_store_schema::{ChargeRow, Text};
use mf_store_sound::is_value;
use mf_store_values::amount_from;

/// Whether a number is that of no choice.
pub(crate) fn is_none<C: Choice>(number: u32) -> bool
    ensures { IsTrue result ↔ IsNoNumber C.number_of number }
{
    C::from_number(number).is_none()
}

/// Whether a text is no name.
pub(crate) fn is_no_name(text: &Text) -> bool
    ensures { IsTrue result ↔ ¬ IsName text.now }
{
    !is_name(text.as_str())
}

/// Whether a charge has no value within the limits of its way of computing.
fn has_no_value(row: &ChargeRow) -> bool
    ensures { IsTrue result ↔ ((calc : Calc) → calc_number calc ≡ row.now.calc → (value : ℕ) →
        pos value ≡ row.now.value →
        ¬ IsValue calc value) }
{
    let Some(calc) = Calc::from_number(row.calc) else {
        return true;
    };
    let Some(value) = amount_from(row.value) else {
        return true;
    };
    !is_value(calc, value)
}

/// A row of a charge.
impl Row<()> for ChargeRow {
    type Flaw = ChargeFlaw;

    ghost Breaks = { λ setting flaw before row. BreaksCharge flaw before row };

    fn breaks(&self, _setting: (), before: Option<&Self>, flaw: ChargeFlaw) -> Result<bool, Fault> {
        match flaw {
            ChargeFlaw::Number => Ok(!is_next(before, self)),
            ChargeFlaw::Limit => Ok(self.number > MOST_IN_CATALOGUE),
            ChargeFlaw::Name => Ok(is_no_name(&self.name)),
            ChargeFlaw::Kind => Ok(is_none::<ChargeKind>(self.kind)),
            ChargeFlaw::Calc => Ok(is_none::<Calc>(self.calc)),
            ChargeFlaw::Value => Ok(has_no_value(self)),
        }
    }
}
