//! A loan's instalments as the tables keep them.

ghost use Rattle.std.specs.Prelude.{◌≡◌, [], None, Some, IfOk};
ghost use Rattle.mf_alloc.specs.Sums.{AreWhole, AreWithin};
ghost use Rattle.mf_account.specs.Loan.{state_of_loan};
ghost use Rattle.mf_model.specs.Accounts.{account_in, of_account};
ghost use Rattle.mf_model.specs.Institution.{Institution, Ledger};
ghost use Rattle.mf_model.specs.Store.{ledger_at};

use crate::store::Store;
use mf_alloc::Instalment;
use mf_base::Fault;
use mf_office::Account;
use mf_store_schema::InstalmentRow;
use mf_store_values::instalments_from;
use sqlite::Alter;
use std::alloc::Global;

impl<S: Alter> Store<S> {
    ghost use Rattle.mf_store.specs.Stands.{StandsFor, IsClean, AsksTables};

    /// The instalments of a loan, as the replay of its entries leaves them; none where it is not disbursed, or not
    /// there.
    pub fn instalments_at(&mut self, alloc: Global, loan: Account) -> Result<Vec<Instalment>, Fault>
        ensures asks { AsksTables S.Store self.old self.new result }
        ensures whole { IfOk result (λ rows. AreWhole rows.items) }
        ensures within { IfOk result (λ rows. AreWithin rows.items) }
        ensures value { IsClean S.Store self.new → (i : Institution) → StandsFor S.Store self.old i → (l : Ledger)
            → ledger_at loan i ≡ Some l
            → IfOk result (λ rows. rows.items ≡ of_account [] (λ a. (state_of_loan a).rows)
            (account_in i.catalogue l)) }
        ensures none { IsClean S.Store self.new → (i : Institution) → StandsFor S.Store self.old i
            → ledger_at loan i ≡ None → IfOk result (λ rows. rows.items ≡ []) }
    {
        let rows = self.list::<InstalmentRow>((loan.office.get(), loan.number.get()))?;
        instalments_from(alloc, &rows)
    }
}
