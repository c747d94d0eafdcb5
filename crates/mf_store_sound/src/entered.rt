//! The rows of the entries of one loan.

ghost use Rattle.std.specs.Prelude.{◌↔◌, IsTrue};
ghost use Rattle.mf_store_sound.specs.Entries.{AreLoanEntries};

use crate::entries::DisbursedLoan;
use crate::numbered::are_numbered;
use crate::seals::are_seals_last;
use mf_account::MOST_ENTRIES;
use mf_store_schema::EntryRow;

/// Whether the rows are those of the entries of a loan: numbered from 1, none before its disbursement or after today,
/// and a standing write-off or refund the last. It does not check that the staff who entered them exist.
pub(crate) fn are_loan_entries(loan: DisbursedLoan, rows: &[EntryRow]) -> bool
    ensures { IsTrue result ↔ AreLoanEntries loan.today loan.day loan.periods loan.office loan.number rows.now }
{
    if !are_numbered(loan, rows, MOST_ENTRIES as u32) {
        return false;
    }
    are_seals_last(rows)
}
