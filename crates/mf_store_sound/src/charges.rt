//! Whether a row is that of a charge with its number.

ghost use Rattle.std.specs.Prelude.{◌↔◌, IsTrue};
ghost use Rattle.mf_model.specs.Sound.{IsSoundCharge, IsValue};
ghost use Rattle.mf_store_values.specs.Flat.{charge_as};
ghost use Rattle.mf_store_sound.specs.Stored.{IsRowOf};

use crate::numbered::NumberedRow;
use mf_catalog::{Calc, greatest_value};
use mf_model::is_name;
use mf_store_schema::ChargeRow;
use mf_store_values::charge_columns;

/// Whether a value is within the limits of a charge that is computed this way.
pub fn is_value(calc: Calc, value: u64) -> bool
    ensures { IsTrue result ↔ IsValue calc value }
{
    value >= 1 && value <= greatest_value(calc)
}

/// The row of a charge. An institution has one list of charges, so the owner says nothing.
impl NumberedRow<()> for ChargeRow {
    ghost Setting = { λ catalogue. Unit {0} };

    ghost IsNumbered = { λ catalogue of number row. IsRowOf charge_as IsSoundCharge number row };

    fn is_numbered(&self, _catalogue: (), number: u32) -> bool {
        let Some(columns) = charge_columns(self) else {
            return false;
        };
        self.number == number
            && is_name(self.name.as_str())
            && is_value(columns.calc, columns.value)
    }
}
