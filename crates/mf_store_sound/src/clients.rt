//! Whether a row is that of a client with its number.

ghost use Rattle.mf_model.specs.Sound.{IsName};
ghost use Rattle.mf_store_values.specs.Flat.{client_in};
ghost use Rattle.mf_store_sound.specs.Stored.{IsRowOf};

use crate::numbered::NumberedRow;
use mf_model::is_name;
use mf_store_schema::ClientRow;

/// The row of a client of an office.
impl NumberedRow<u32> for ClientRow {
    ghost Setting = { λ office. Unit {0} };

    ghost IsNumbered = { λ office of number row. IsRowOf (client_in office) IsName number row };

    fn is_numbered(&self, office: u32, number: u32) -> bool {
        self.office == office && self.number == number && is_name(self.name.as_str())
    }
}
