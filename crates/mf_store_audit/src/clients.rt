//! Rows of clients: what is wrong with them.

ghost use Rattle.mf_store_audit.specs.Offices.{BreaksClient};

use crate::charges::is_no_name;
use crate::finding::ClientFlaw;
use crate::keys::{is_after, is_next};
use crate::offices::is_office;
use crate::places::Row;
use mf_base::Fault;
use mf_office::AccountNo;
use mf_store_schema::{ClientRow, OfficeRow};

/// A row of a client over these offices.
impl<'a> Row<&'a [OfficeRow]> for ClientRow {
    type Flaw = ClientFlaw;

    ghost Breaks = { λ offices flaw before row. BreaksClient offices.now flaw before row };

    fn breaks(
        &self,
        offices: &'a [OfficeRow],
        before: Option<&Self>,
        flaw: ClientFlaw,
    ) -> Result<bool, Fault> {
        match flaw {
            ClientFlaw::Order => Ok(!is_after(before, self)),
            ClientFlaw::Office => Ok(!is_office(offices, self.office)),
            ClientFlaw::Number => Ok(!is_next(before, self)),
            ClientFlaw::Limit => Ok(self.number > AccountNo::MAX),
            ClientFlaw::Name => Ok(is_no_name(&self.name)),
        }
    }
}
