//! The store: what it reads of its tables and knows beside them, how it is made and given back.

ghost use Rattle.std.specs.Prelude.{◌≡◌, ◌<◌, ◌≤◌, ◌⊎◌, ◌++◌, [], ◌∷◌, Option, length, false, None, Some, IsTrue};
ghost use Rattle.std.specs.Prelude.{◌↔◌, IfOk, IfErr, IfSome, IsSome};
ghost use Rattle.std.specs.Prelude.{map, filter, option_map, take};
ghost use Rattle.mf_base.specs.declared.fault.Fault.TheVariants.{F20};
ghost use Rattle.mf_base.specs.DayText.{last_entered_day};
ghost use Rattle.sqlite.specs.Held.{state};
ghost use Rattle.mf_store_sql.specs.Writes.{Serves};
ghost use Rattle.mf_model.specs.Institution.{Institution, newly_made, product_in};
ghost use Rattle.mf_model.specs.Store.{IsAdmitted, after_commit, role_of, use_at, account_at};
ghost use Rattle.mf_model.specs.declared.commit.Commit.{Commit};
ghost use Rattle.mf_model.specs.declared.commit.Commit.TheVariants.{AddEntry, ReverseEntry};
ghost use Rattle.mf_store_values.specs.Flat.{key_at, tables_of};
ghost use Rattle.mf_journal.specs.Chain.{line_of_row};
ghost use Rattle.mf_journal.specs.declared.following.Head.{Head};
ghost use Rattle.mf_model.specs.Notes.{noted_now};
ghost use Rattle.mf_store_noted.specs.Becoming.{BecomesBeside};
ghost use Rattle.mf_journal.specs.Founding.{founding};
ghost use Rattle.mf_store_noted.specs.Kept.{IsBegun, IsToday, begins_of, journal_at, journaled, number_kept};
ghost use Rattle.mf_store_noted.specs.Tabled.{IsTabled, HasGoodDisk, IsUnfounded, IsUnfoundedJournaled};
ghost use Rattle.mf_store_journal.specs.Index.{AreOfFirst, index_entry};
ghost use Rattle.mf_store_values.specs.ReceiptRows.{receipt_in};
ghost use Rattle.mf_store_schema.specs.Rows.{loan_row, office_row, is_loan_above, is_between_keys};
ghost use Rattle.mf_store_schema.specs.Writes.{schema_of, Holds};
ghost use Rattle.mf_store.specs.Beginning.{BeginsJournal};
ghost use Rattle.mf_store.specs.Facts.{KnownStore, AreTrueOf, nothing_known};
ghost use Rattle.mf_store.specs.Learning.{Tells};
ghost use Rattle.mf_store.specs.Stands.{StandsFor, IsClean, Leaves, IsOpen, Stays, AsksTables, MayAskTables};
ghost use Rattle.mf_store.specs.Stands.{MakesCommit, WritesNoted, kept_by};

use crate::known::{Known, News};
use mf_account::LoanAccount;
use mf_base::{Day, Fault};
use mf_catalog::Product;
use mf_journal::{Head as JournalHead, JournalRow};
use mf_model::{Note, laws};
use mf_office::{Account, Caller, Key, Role};
use mf_store_commits::{entry_writes, first_writes, reversal_writes};
use mf_store_journal::IndexEntry;
use mf_store_noted::{
    JOURNALED_SCHEMA, Journal, Place, begin_upgraded, found_journaled, founding_head, write_kept,
};
use mf_store_schema::{
    Listed, ReceiptRow, SCHEMA, StoreWrite, find_receipt, list_rows, loans_above, offices_within,
};
use mf_store_sql::apply;
use mf_store_values::see_open;
use sqlite::{Alter, Connection, Row};
use std::alloc::Global;
use std::marker::Model;

/// An institution in tables, what is known of it beside them, and its journal where one is kept. No transaction is open
/// between calls.
#[derive(Drop)]
pub struct Store<S: Alter> {
    pub(crate) connection: Connection<S>,
    known: Known,
    journal: Option<Journal>,
}

impl<S: Alter> Model for Store<S> {
    ghost use Rattle.std.specs.Prelude.{◌≡◌, false};
    ghost use Rattle.mf_store.specs.Facts.{KnownStore, kept_code};

    ghost Value = { KnownStore S };

    ghost coded = { kept_code S.code };

    ghost view = { λ s. record { connection = s.connection; known = s.known; journal = s.journal } };

    ghost invariant = { λ s. s.connection.in_transaction ≡ false };
}

impl<S: Alter> Store<S> {
    /// The row of an office's receipt, if the office knows it.
    pub(crate) fn find_receipt(
        &mut self,
        office: u32,
        receipt: &str,
    ) -> Result<Option<ReceiptRow>, Fault>
        ensures asks { AsksTables S.Store self.old self.new result }
        ensures value { IsClean S.Store self.new → (i : Institution) → StandsFor S.Store self.old i
            → IfOk result (λ x. x ≡ option_map (receipt_in office) (use_at office receipt.now i)) }
    {
        find_receipt(&mut self.connection, office, receipt)
    }

    /// F20 where a fault has shut the store. No table is asked.
    pub(crate) fn see_open(&mut self) -> Result<(), Fault>
        ensures { AsksTables S.Store self.old self.new result }
    {
        see_open(&mut self.connection)
    }

    /// The rows with these values of the first columns.
    pub fn list<T: Listed>(&mut self, part: T::Part) -> Result<Vec<Row>, Fault>
        ensures asks { AsksTables S.Store self.old self.new result }
        ensures rows { IsClean S.Store self.new → (i : Institution) → StandsFor S.Store self.old i
            → IfOk result (λ rows. rows.items ≡ map T.Table.stored (filter (T.is_in part)
            (T.Table.list (kept_by self.old i)))) }
    {
        list_rows::<T, S>(&mut self.connection, part)
    }

    /// The first 100 rows of an office's loans under numbers above one.
    pub(crate) fn rows_above(&mut self, office: u32, after: u32) -> Result<Vec<Row>, Fault>
        ensures asks { AsksTables S.Store self.old self.new result }
        ensures rows { IsClean S.Store self.new → (i : Institution) → StandsFor S.Store self.old i
            → IfOk result (λ rows. rows.items ≡ take 100 (map loan_row (filter (is_loan_above office after)
            (tables_of i).loans))) }
    {
        loans_above(&mut self.connection, office, after)
    }

    /// The rows of the offices whose hierarchy text is in a range.
    pub(crate) fn rows_within(&mut self, low: &str, high: &str) -> Result<Vec<Row>, Fault>
        ensures asks { AsksTables S.Store self.old self.new result }
        ensures rows { IsClean S.Store self.new → (i : Institution) → StandsFor S.Store self.old i
            → IfOk result (λ rows. rows.items ≡ map office_row (filter (is_between_keys low.now high.now)
            (tables_of i).offices)) }
    {
        offices_within(&mut self.connection, low, high)
    }

    /// A new institution on this business day where there are no tables yet, made in one commit. The day is at most
    /// 2099-12-31. The error is F20, and the connection comes back.
    pub fn create(
        alloc: Global,
        mut connection: Connection<S>,
        day: Day,
    ) -> Result<Store<S>, (Fault, Connection<S>)>
        requires alone { connection.in_transaction ≡ false }
        requires day { day ≤ last_entered_day }
        ensures premise { IfOk result (λ store. IsClean S.Store store → HasGoodDisk S.Store connection) }
        ensures stands { IfOk result (λ store. IsClean S.Store store
            → Serves schema_of Holds (state S.Store connection).now None → StandsFor S.Store store (newly_made day)) }
        ensures leaves { IfOk result (λ store. IsClean S.Store store
            → Serves schema_of Holds (state S.Store connection).now None → Leaves S.Store store (newly_made day ∷ [])) }
        ensures open { IfOk result (λ store. IsClean S.Store store → IsOpen S.Store store) }
        ensures was_open { IfOk result (λ store. IsClean S.Store store → IsTrue (state S.Store connection).is_open) }
        ensures gives_up { IfErr result (λ e. e.0 ≡ F20) }
        ensures given_back { IfErr result (λ e. IsUnfounded S.Store day connection e.1) }
        ensures alone { IfErr result (λ e. e.1.in_transaction ≡ false) }
    {
        laws::soundness();
        let writes = match first_writes(alloc, day) {
            Ok(writes) => writes,
            Err(fault) => return Err((fault, connection)),
        };
        let known = match Known::nothing(alloc) {
            Ok(known) => known,
            Err(fault) => return Err((fault, connection)),
        };
        match apply(&mut connection, &writes) {
            Ok(()) => Ok(Store {
                connection,
                known,
                journal: None,
            }),
            Err(_) => Err((Fault::F20, connection)),
        }
    }

    /// The same of an institution that keeps a journal, which begins at its founding and has no line yet.
    pub fn create_journaled(
        alloc: Global,
        mut connection: Connection<S>,
        day: Day,
    ) -> Result<Store<S>, (Fault, Connection<S>)>
        requires alone { connection.in_transaction ≡ false }
        requires day { day ≤ last_entered_day }
        ensures premise { IfOk result (λ store. IsClean S.Store store → HasGoodDisk S.Store connection) }
        ensures begins { IfOk result (λ store. begins_of store.journal ≡ Some (founding 3 day)) }
        ensures stands { IfOk result (λ store. IsClean S.Store store
            → Serves schema_of Holds (state S.Store connection).now None
            → StandsFor S.Store store (journaled (newly_made day))) }
        ensures leaves { IfOk result (λ store. IsClean S.Store store
            → Serves schema_of Holds (state S.Store connection).now None
            → Leaves S.Store store (journaled (newly_made day) ∷ [])) }
        ensures open { IfOk result (λ store. IsClean S.Store store → IsOpen S.Store store) }
        ensures was_open { IfOk result (λ store. IsClean S.Store store → IsTrue (state S.Store connection).is_open) }
        ensures gives_up { IfErr result (λ e. e.0 ≡ F20) }
        ensures given_back { IfErr result (λ e. IsUnfoundedJournaled S.Store day connection e.1) }
        ensures alone { IfErr result (λ e. e.1.in_transaction ≡ false) }
    {
        let begins = founding_head(day);
        let known = match Known::nothing(alloc) {
            Ok(known) => known,
            Err(fault) => return Err((fault, connection)),
        };
        match found_journaled(alloc, &mut connection, day, begins) {
            Ok(()) => Ok(Store {
                connection,
                known,
                journal: Some(Journal {
                    begins,
                    head: begins,
                }),
            }),
            Err(fault) => Err((fault, connection)),
        }
    }

    /// A store over tables that hold an institution and, where it keeps one, this journal. It doesn't ask them for
    /// anything, and has room for what it comes to know.
    pub fn over(connection: Connection<S>, known: Known, journal: Option<Journal>) -> Store<S>
        requires alone { connection.in_transaction ≡ false }
        requires nothing { known ≡ nothing_known }
        ensures same { result.connection ≡ connection }
        ensures stands { (i : Institution) → IsTabled S.Store journal connection i → StandsFor S.Store result i }
        ensures leaves { IsOpen S.Store result → (i : Institution) → IsTabled S.Store journal connection i
            → Leaves S.Store result (i ∷ []) }
    {
        // With nothing to commit a stop leaves just the tables as they are; the call brings that into the proof.
        let _settled = connection.is_autocommit();
        Store {
            connection,
            known,
            journal,
        }
    }

    /// The connection to the tables, which hold what the store stood for.
    pub fn release(self) -> Connection<S>
        ensures same { result ≡ self.connection }
        ensures holds { (i : Institution) → StandsFor S.Store self i → IsTabled S.Store self.journal result i }
        ensures alone { result.in_transaction ≡ false }
    {
        let Store {
            connection,
            known: _,
            journal: _,
        } = self;
        connection
    }

    /// What it knows beside its tables.
    pub(crate) fn known(&self) -> &Known
        ensures { (i : Institution) → StandsFor S.Store self.now i → AreTrueOf result.now i }
    {
        &self.known
    }

    /// Takes in a caller's role.
    pub(crate) fn learn_role(&mut self, caller: Caller, role: Role)
        ensures same { (i : Institution) → StandsFor S.Store self.old i → role_of caller i ≡ Some role
            → StandsFor S.Store self.new i }
        ensures tables { self.new.connection ≡ self.old.connection }
        ensures journal { self.new.journal ≡ self.old.journal }
    {
        self.known.learn_role(caller, role);
    }

    /// Takes in an office's key.
    pub(crate) fn learn_key(&mut self, alloc: Global, office: u32, key: &Key)
        ensures same { (i : Institution) → StandsFor S.Store self.old i → key_at office i ≡ Some key.now
            → StandsFor S.Store self.new i }
        ensures tables { self.new.connection ≡ self.old.connection }
        ensures journal { self.new.journal ≡ self.old.journal }
    {
        self.known.learn_key(alloc, office, key);
    }

    /// Takes in a product.
    pub(crate) fn learn_product(&mut self, number: u32, product: &Product)
        ensures same { (i : Institution) → StandsFor S.Store self.old i → product_in i.catalogue number
            ≡ Some product.now → StandsFor S.Store self.new i }
        ensures tables { self.new.connection ≡ self.old.connection }
        ensures journal { self.new.journal ≡ self.old.journal }
    {
        self.known.learn_product(number, product);
    }

    /// Takes out the account of a loan, where that is known.
    pub(crate) fn take_account(&mut self, loan: Account) -> Option<LoanAccount>
        ensures value { (i : Institution) → StandsFor S.Store self.old i
            → IfSome result (λ account. account_at loan i ≡ Some account) }
        ensures same { (i : Institution) → StandsFor S.Store self.old i → StandsFor S.Store self.new i }
        ensures tables { self.new.connection ≡ self.old.connection }
        ensures journal { self.new.journal ≡ self.old.journal }
    {
        self.known.take_account(loan)
    }

    /// Takes in what was read.
    pub(crate) fn learn(&mut self, news: News)
        ensures same { (i : Institution) → StandsFor S.Store self.old i → Tells news i i
            → StandsFor S.Store self.new i }
        ensures tables { self.new.connection ≡ self.old.connection }
        ensures journal { self.new.journal ≡ self.old.journal }
    {
        self.known.learn(news);
    }

    /// What the first lines of the journal name, as far as that is known.
    pub(crate) fn index(&self) -> &[IndexEntry]
        ensures { result.now ≡ self.now.known.index }
    {
        self.known.index()
    }

    /// Takes lines of the journal into the index, behind those that it has, as far as there is memory for them.
    pub(crate) fn learn_lines(&mut self, rows: &[JournalRow<'_>]) -> Result<(), Fault>
        ensures same { (i : Institution) → StandsFor S.Store self.old i → AreOfFirst (self.old.known.index
            ++ map index_entry (map line_of_row rows.now)) i.journal → StandsFor S.Store self.new i }
        ensures tables { self.new.connection ≡ self.old.connection }
        ensures journal { self.new.journal ≡ self.old.journal }
        ensures gives_up { IfErr result (λ fault. fault ≡ F20) }
    {
        self.known.learn_lines(rows)
    }

    /// The number of the schema, as the row of meta has it.
    pub(crate) fn schema_number(&self) -> u32
        ensures { (i : Institution) → StandsFor S.Store self.now i → (journal : Option Head) → IsBegun journal i
            → result ≡ number_kept journal }
    {
        match &self.journal {
            None => SCHEMA,
            Some(_) => JOURNALED_SCHEMA,
        }
    }

    /// Whether it keeps a journal.
    pub fn keeps_journal(&self) -> bool
        ensures { IsTrue result ↔ IsSome self.now.journal }
    {
        self.journal.is_some()
    }

    /// Where the journal begins and stands, if one is kept.
    pub(crate) fn journal(&self) -> Option<Journal>
        ensures { result ≡ self.now.journal }
    {
        self.journal
    }

    /// Where the journal begins, if one is kept.
    pub fn journal_begins(&self) -> Option<JournalHead>
        ensures { result ≡ begins_of self.now.journal }
    {
        let journal = self.journal?;
        Some(journal.begins)
    }

    /// Gives the institution a journal, where the store keeps none.
    pub(crate) fn begin_upgraded(&mut self, alloc: Global) -> Result<(), Fault>
        requires { self.old.journal ≡ None }
        ensures { BeginsJournal S.Store self.old self.new result }
    {
        let day = self.business_day()?;
        let journal = begin_upgraded(alloc, &mut self.connection, day)?;
        self.journal = Some(journal);
        Ok(())
    }

    /// Where the next line of the journal stands, if one is kept: its day is the business day.
    fn next_place(&mut self) -> Result<Option<Place>, Fault>
        ensures asks { MayAskTables S.Store self.old self.new result }
        ensures journal { IfOk result (λ place. journal_at place ≡ self.new.journal) }
        ensures today { IsClean S.Store self.new → (i : Institution) → StandsFor S.Store self.old i
            → IfOk result (λ place. IsToday place i) }
    {
        let Some(journal) = self.journal else {
            return Ok(None);
        };
        let day = self.business_day()?;
        Ok(Some(Place { journal, day }))
    }

    /// Makes the writes in one commit, with the line that notes the request where a journal is kept; or none of it.
    fn write(&mut self, alloc: Global, writes: &[StoreWrite], note: &Note<'_>) -> Result<(), Fault>
        requires { 0 < length writes.now }
        ensures { WritesNoted S.Store writes.now (noted_now note.now) self.old self.new result }
    {
        let place = self.next_place()?;
        self.journal = write_kept(alloc, &mut self.connection, writes, place, note)?;
        Ok(())
    }

    /// Makes the writes in one commit with the line that notes the request, and takes in what is new; or neither. Where
    /// they make a commit's change of each institution that the store stood for before it was asked, the call makes the
    /// commit.
    pub(crate) fn make(
        &mut self,
        alloc: Global,
        writes: &[StoreWrite],
        news: News,
        note: &Note<'_>,
    ) -> Result<(), Fault>
        requires { 0 < length writes.now }
        ensures { (first : KnownStore S) (commit : Commit) → Stays S.Store first self.old
            → (IsClean S.Store self.old → (i : Institution) → StandsFor S.Store first i → IsAdmitted commit i
            → BecomesBeside writes.now i (after_commit commit i) × Tells news i (after_commit commit i))
            → MakesCommit S.Store commit (noted_now note.now) first self.new result }
    {
        self.write(alloc, writes, note)?;
        self.known.learn(news);
        Ok(())
    }

    /// Adds the last entry of a loan's account to the loan, which has all the others and no more, and writes what that
    /// changed of the loan's instalments and shares. The account is known then.
    pub(crate) fn add_entry(
        &mut self,
        alloc: Global,
        loan: Account,
        account: LoanAccount,
        note: &Note<'_>,
    ) -> Result<(), Fault>
        ensures { MakesCommit S.Store (AddEntry loan account) (noted_now note.now) self.old self.new result }
    {
        let Account { office, number } = loan;
        let writes = entry_writes(alloc, Account { office, number }, &account)?;
        let made = self.write(alloc, &writes, note);
        self.known
            .learn_commit(alloc, Account { office, number }, account, made.is_ok());
        made
    }

    /// Writes an entry of a loan that is reversed in the loan's account, and what that changed of the loan's
    /// instalments and shares. All other entries are the same in both. The row of the entry's receipt stays as it is.
    /// The account is known then.
    pub(crate) fn reverse_entry(
        &mut self,
        alloc: Global,
        loan: Account,
        seq: u32,
        account: LoanAccount,
        note: &Note<'_>,
    ) -> Result<(), Fault>
        ensures { MakesCommit S.Store (ReverseEntry loan seq account) (noted_now note.now) self.old self.new result }
    {
        let Account { office, number } = loan;
        let writes = reversal_writes(alloc, Account { office, number }, seq, &account)?;
        let made = self.write(alloc, &writes, note);
        self.known
            .learn_commit(alloc, Account { office, number }, account, made.is_ok());
        made
    }
}
