//! Whether a row is that of a member of staff with its number.

ghost use Rattle.mf_model.specs.Sound.{IsName};
ghost use Rattle.mf_model.specs.Institution.{Staff};
ghost use Rattle.mf_store_values.specs.Flat.{staff_in};
ghost use Rattle.mf_store_sound.specs.Stored.{IsRowOf};

use crate::numbered::NumberedRow;
use mf_base::Choice;
use mf_model::is_name;
use mf_office::Role;
use mf_store_schema::StaffRow;

/// The row of a member of staff of an office.
impl NumberedRow<u32> for StaffRow {
    ghost Setting = { λ office. Unit {0} };

    ghost IsNumbered = { λ office of number row. IsRowOf (staff_in office) (λ (s : Staff). IsName s.name) number row };

    fn is_numbered(&self, office: u32, number: u32) -> bool {
        match Role::from_number(self.role) {
            Some(_) => self.office == office
                && self.number == number
                && is_name(self.name.as_str()),
            None => false,
        }
    }
}
