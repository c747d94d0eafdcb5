//! Rows of staff: what is wrong with them.

ghost use Rattle.mf_store_audit.specs.Offices.{BreaksStaff};

use crate::charges::{is_no_name, is_none};
use crate::finding::StaffFlaw;
use crate::keys::{is_after, is_next};
use crate::offices::is_office;
use crate::places::Row;
use mf_base::Fault;
use mf_office::{Role, StaffNo};
use mf_store_schema::{OfficeRow, StaffRow};

/// A row of a member of staff over these offices.
impl<'a> Row<&'a [OfficeRow]> for StaffRow {
    type Flaw = StaffFlaw;

    ghost Breaks = { λ offices flaw before row. BreaksStaff offices.now flaw before row };

    fn breaks(
        &self,
        offices: &'a [OfficeRow],
        before: Option<&Self>,
        flaw: StaffFlaw,
    ) -> Result<bool, Fault> {
        match flaw {
            StaffFlaw::Order => Ok(!is_after(before, self)),
            StaffFlaw::Office => Ok(!is_office(offices, self.office)),
            StaffFlaw::Number => Ok(!is_next(before, self)),
            StaffFlaw::Limit => Ok(self.number > StaffNo::MAX),
            StaffFlaw::Name => Ok(is_no_name(&self.name)),
            StaffFlaw::Role => Ok(is_none::<Role>(self.role)),
        }
    }
}
