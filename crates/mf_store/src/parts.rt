//! What the entries of a loan settled, as the tables keep it.

ghost use Rattle.std.specs.Prelude.{◌≡◌, map, Some, IfOk};
ghost use Rattle.mf_model.specs.Institution.{Institution, Ledger};
ghost use Rattle.mf_model.specs.Store.{ledger_at};
ghost use Rattle.mf_store_values.specs.Flat.{shares_kept, kept_of};
ghost use Rattle.mf_store_values.specs.Kept.{part_told};

use crate::store::Store;
use mf_account::SettledPart;
use mf_base::Fault;
use mf_office::Account;
use mf_store_schema::ShareRow;
use mf_store_values::parts_from;
use sqlite::Alter;
use std::alloc::Global;

impl<S: Alter> Store<S> {
    ghost use Rattle.mf_store.specs.Stands.{StandsFor, IsClean, AsksTables};

    /// What the entries of a loan that is there settled, by entry and place; nothing where it is not disbursed.
    pub(crate) fn parts_at(
        &mut self,
        alloc: Global,
        loan: Account,
    ) -> Result<Vec<SettledPart>, Fault>
        ensures asks { AsksTables S.Store self.old self.new result }
        ensures value { IsClean S.Store self.new → (i : Institution) → StandsFor S.Store self.old i → (l : Ledger)
            → ledger_at loan i ≡ Some l
            → IfOk result (λ parts. parts.items ≡ map part_told (kept_of shares_kept i.catalogue l)) }
    {
        let rows = self.list::<ShareRow>((loan.office.get(), loan.number.get()))?;
        parts_from(alloc, &rows)
    }
}
