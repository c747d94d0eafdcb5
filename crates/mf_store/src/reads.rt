//! Rows by their keys, each one query, and the business day.

ghost use Rattle.std.specs.Prelude.{◌≡◌, ◌≤◌, ℕ, [], ◌∷◌, Option, Some, is_some, find, IfOk, IfErr};
ghost use Rattle.mf_base.specs.declared.fault.Fault.TheVariants.{F20};
ghost use Rattle.mf_base.specs.DayText.{last_day};
ghost use Rattle.mf_model.specs.Institution.{Institution};
ghost use Rattle.mf_model.specs.Sound.{IsSound};
ghost use Rattle.mf_store_schema.specs.Rows.{is_row_of_meta, is_row_of_entry};
ghost use Rattle.mf_journal.specs.declared.following.Head.{Head};
ghost use Rattle.mf_store_noted.specs.Kept.{begins_of, meta_kept, tables_kept};
ghost use Rattle.mf_store_values.specs.Flat.{tables_of, office_row_at, staff_row_at, client_row_at};
ghost use Rattle.mf_store_values.specs.Flat.{charge_row_at, product_row_at, loan_row_at};
ghost use Rattle.mf_store.specs.Looks.{office_by_key, staff_by_key, client_by_key, charge_by_key, product_by_key};
ghost use Rattle.mf_store.specs.Looks.{loan_by_key};

use crate::known::News;
use crate::store::Store;
use mf_base::{Day, Fault};
use mf_store_schema::{
    ChargeRow, ClientRow, EntryRow, LoanRow, MetaRow, OfficeRow, ProductRow, StaffRow, Table,
    find_row,
};
use sqlite::Alter;

/// A table whose row under a key is that of something in an institution, whether a journal is kept beside it or not.
pub(crate) trait InstitutionRow: Table {
    ghost row_at: { Self.Key → Option Head → Institution → Option Self };

    ghost looked_up: { (key : Self.Key) (journal : Option Head) (i : Institution) → IsSound i
        → find (Self.is_at key) (Self.list (tables_kept journal i)) ≡ row_at key journal i };
}

impl InstitutionRow for MetaRow {
    ghost use Rattle.std.proofs.Common.{refl};

    ghost row_at = { λ key journal i. find (is_row_of_meta key) (meta_kept journal i.catalogue.day ∷ []) };

    ghost looked_up = { λ key journal i sound. refl };
}

impl InstitutionRow for OfficeRow {
    ghost row_at = { λ key journal. office_row_at key };

    ghost looked_up = { λ key journal. office_by_key key };
}

impl InstitutionRow for StaffRow {
    ghost row_at = { λ key journal. staff_row_at key.0 key.1 };

    ghost looked_up = { λ key journal. staff_by_key key };
}

impl InstitutionRow for ClientRow {
    ghost row_at = { λ key journal. client_row_at key.0 key.1 };

    ghost looked_up = { λ key journal. client_by_key key };
}

impl InstitutionRow for ChargeRow {
    ghost row_at = { λ key journal. charge_row_at key };

    ghost looked_up = { λ key journal. charge_by_key key };
}

impl InstitutionRow for ProductRow {
    ghost row_at = { λ key journal. product_row_at key };

    ghost looked_up = { λ key journal. product_by_key key };
}

impl InstitutionRow for LoanRow {
    ghost row_at = { λ key journal. loan_row_at key.0 key.1 };

    ghost looked_up = { λ key journal. loan_by_key key };
}

impl InstitutionRow for EntryRow {
    ghost use Rattle.std.proofs.Common.{refl};

    ghost row_at = { λ key journal i. find (is_row_of_entry key.0 key.1 key.2) (tables_of i).entries };

    ghost looked_up = { λ key journal i sound. refl };
}

/// The day that the table meta holds.
fn day_in(meta: Option<MetaRow>) -> Result<Day, Fault>
    ensures day { IfOk result (λ day. (journal : Option Head) (n : ℕ) → n ≤ last_day → meta ≡ Some (meta_kept journal n)
        → day ≡ n) }
    ensures gives_up { IfErr result (λ fault. fault ≡ F20) }
{
    let Some(meta) = meta else {
        return Err(Fault::F20);
    };
    match Day::read(meta.day.as_str().as_bytes()) {
        Some(day) => Ok(day),
        None => Err(Fault::F20),
    }
}

impl<S: Alter> Store<S> {
    ghost use Rattle.mf_store.specs.Stands.{StandsFor, IsClean, AsksTables, MayAskTables};

    /// The row under a key, if there is one.
    pub(crate) fn find<T: InstitutionRow>(&mut self, key: T::Key) -> Result<Option<T>, Fault>
        ensures asks { AsksTables S.Store self.old self.new result }
        ensures value { IsClean S.Store self.new → (i : Institution) → StandsFor S.Store self.old i
            → IfOk result (λ row. row ≡ T.row_at key (begins_of self.old.journal) i) }
    {
        find_row(&mut self.connection, key)
    }

    /// Whether there is a row under a key.
    pub(crate) fn has_row<T: InstitutionRow + Drop>(&mut self, key: T::Key) -> Result<bool, Fault>
        ensures asks { AsksTables S.Store self.old self.new result }
        ensures value { IsClean S.Store self.new → (i : Institution) → StandsFor S.Store self.old i
            → IfOk result (λ there. there ≡ is_some (T.row_at key (begins_of self.old.journal) i)) }
    {
        let row = self.find::<T>(key)?;
        Ok(row.is_some())
    }

    /// The business day.
    pub fn business_day(&mut self) -> Result<Day, Fault>
        ensures asks { MayAskTables S.Store self.old self.new result }
        ensures value { IsClean S.Store self.new → (i : Institution) → StandsFor S.Store self.old i
            → IfOk result (λ day. day ≡ i.catalogue.day) }
    {
        if let Some(day) = self.known().day() {
            return Ok(day);
        }
        let found = self.find::<MetaRow>(1)?;
        let day = day_in(found)?;
        self.learn(News::BusinessDay(day));
        Ok(day)
    }
}
