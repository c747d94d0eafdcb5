//! Where a receipt was used.

ghost use Rattle.std.specs.Prelude.{◌≡◌, IfOk};
ghost use Rattle.mf_model.specs.Institution.{Institution};
ghost use Rattle.mf_model.specs.Store.{receipt_at};

use crate::store::Store;
use mf_account::Receipt;
use mf_base::Fault;
use mf_model::ReceiptUse;
use mf_office::OfficeNo;
use mf_store_schema::EntryRow;
use mf_store_values::{or_give_up, use_from};
use sqlite::Alter;

impl<S: Alter> Store<S> {
    ghost use Rattle.mf_store.specs.Stands.{StandsFor, IsClean, MayAskTables};

    /// The entry that carries a receipt of an office, or None where none does: one query by the receipt, and one by the
    /// entry's number.
    pub fn receipt(
        &mut self,
        office: OfficeNo,
        receipt: &Receipt,
    ) -> Result<Option<ReceiptUse>, Fault>
        ensures asks { MayAskTables S.Store self.old self.new result }
        ensures value { IsClean S.Store self.new → (i : Institution) → StandsFor S.Store self.old i
            → IfOk result (λ found. found ≡ receipt_at office receipt.now i) }
    {
        let office = office.get();
        let Some(row) = self.find_receipt(office, receipt.as_str())? else {
            return Ok(None);
        };
        let entry = self.find::<EntryRow>((office, row.loan, row.seq))?;
        let entry = or_give_up(entry)?;
        Ok(Some(use_from(row, entry)?))
    }
}
