//! The rows of one office, whole: one query a kind, over the range of the office's keys.

ghost use Rattle.std.specs.Prelude.{◌≡◌, ℕ, List, map, Some, IfOk};
ghost use Rattle.std.specs.List.{AllByRecursion};
ghost use Rattle.mf_model.specs.Institution.{Institution, Ledger};
ghost use Rattle.mf_model.specs.Store.{rows_at, ledger_at};
ghost use Rattle.mf_store_schema.specs.Rows.{loan_row};
ghost use Rattle.mf_store_values.specs.Flat.{loan_in};

use crate::store::Store;
use mf_base::Fault;
use mf_office::{Name, OfficeNo};
use mf_store_schema::{ClientRow, LoanRow, StaffRow};
use mf_store_values::{Ledger, OfficeRows, StaffMember, loan_in_row, names_from, staff_from};
use sqlite::{Alter, Row};
use std::alloc::Global;
use std::marker::Model;

impl<S: Alter> Store<S> {
    ghost use Rattle.mf_store.specs.Stands.{StandsFor, IsClean, AsksTables, MayAskTables};

    /// The staff of an office, by number.
    fn staff_at(&mut self, alloc: Global, office: u32) -> Result<Vec<StaffMember>, Fault>
        ensures asks { AsksTables S.Store self.old self.new result }
        ensures value { IsClean S.Store self.new → (i : Institution) → StandsFor S.Store self.old i
            → IfOk result (λ list. list.items ≡ (rows_at office i).staff) }
    {
        let rows = self.list::<StaffRow>(office)?;
        staff_from(alloc, &rows)
    }

    /// The names of an office's clients, by number.
    fn clients_at(&mut self, alloc: Global, office: u32) -> Result<Vec<Name>, Fault>
        ensures asks { AsksTables S.Store self.old self.new result }
        ensures value { IsClean S.Store self.new → (i : Institution) → StandsFor S.Store self.old i
            → IfOk result (λ list. list.items ≡ (rows_at office i).clients) }
    {
        let rows = self.list::<ClientRow>(office)?;
        names_from(alloc, &rows)
    }

    /// The loan of a row, with its entries.
    fn ledger_of(&mut self, alloc: Global, row: &Row) -> Result<Ledger, Fault>
        ensures asks { MayAskTables S.Store self.old self.new result }
        ensures value { IsClean S.Store self.new → (i : Institution) → StandsFor S.Store self.old i
            → (office number : ℕ) (l : Ledger)
            → row.now ≡ loan_row (loan_in office number l.loan)
            → ledger_at (record { office = office; number = number }) i ≡ Some l
            → IfOk result (λ ledger. ledger ≡ l) }
    {
        let (account, loan) = loan_in_row(row)?;
        let entries = self.entries_at(alloc, account)?;
        Ok(Ledger { loan, entries })
    }

    /// The loans of rows, with their entries, in order.
    fn ledgers_of(&mut self, alloc: Global, rows: &[Row]) -> Result<Vec<Ledger>, Fault>
        ensures asks { MayAskTables S.Store self.old self.new result }
        ensures value { IsClean S.Store self.new → (i : Institution) → StandsFor S.Store self.old i
            → (office : ℕ) (ls : List (ℕ × Ledger))
            → AllByRecursion (λ l. ledger_at (record { office = office; number = l.0 }) i ≡ Some l.1) ls
            → rows.now ≡ map (λ l. loan_row (loan_in office l.0 l.1.loan)) ls
            → IfOk result (λ list. list.items ≡ map (λ l. l.1) ls) }
    {
        let mut ledgers = Vec::new(alloc);
        for row in rows {
            let ledger = self.ledger_of(alloc, row)?;
            ledgers.push(ledger)?;
        }
        Ok(ledgers)
    }

    /// The loans of an office, with their entries, by number.
    fn ledgers_at(&mut self, alloc: Global, office: u32) -> Result<Vec<Ledger>, Fault>
        ensures asks { AsksTables S.Store self.old self.new result }
        ensures value { IsClean S.Store self.new → (i : Institution) → StandsFor S.Store self.old i
            → IfOk result (λ list. list.items ≡ (rows_at office i).loans) }
    {
        let rows = self.list::<LoanRow>(office)?;
        self.ledgers_of(alloc, &rows)
    }

    /// The rows of an office, none where it isn't there.
    pub fn office_rows(&mut self, alloc: Global, office: OfficeNo) -> Result<OfficeRows, Fault>
        ensures asks { AsksTables S.Store self.old self.new result }
        ensures value { IsClean S.Store self.new → (i : Institution) → StandsFor S.Store self.old i
            → IfOk result (λ rows. rows ≡ rows_at office i) }
    {
        let office = office.get();
        let staff = self.staff_at(alloc, office)?;
        let clients = self.clients_at(alloc, office)?;
        let loans = self.ledgers_at(alloc, office)?;
        Ok(OfficeRows::new(staff, clients, loans))
    }
}
