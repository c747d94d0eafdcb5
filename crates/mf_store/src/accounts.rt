//! The accounts of loans: each is the one that is known beside the tables, or it is resumed from the loan's row, its
//! product's terms, its entries, and the instalments and shares that are kept of it. In a list of loans none is
//! resumed.

ghost use Rattle.std.specs.Prelude.{◌≡◌, ◌≤◌, ◌-◌, ◌++◌, ℕ, List, [], length, map, option_map, true, Some, OnOk};
ghost use Rattle.std.specs.Prelude.{IfOk, IfErr};
ghost use Rattle.std.specs.List.{AllByRecursion, list_any};
ghost use Rattle.mf_alloc.specs.Sums.{AreWhole, AreWithin, is_open};
ghost use Rattle.mf_base.specs.declared.fault.Fault.TheVariants.{F20};
ghost use Rattle.mf_account.specs.Change.{account_by_replay};
ghost use Rattle.mf_account.specs.Loan.{state_of_loan};
ghost use Rattle.mf_catalog.specs.Product.{charge_of};
ghost use Rattle.mf_model.specs.Accounts.{running_from, terms_in, status_in, account_in, of_account};
ghost use Rattle.mf_model.specs.Institution.{Institution, Ledger, charge_in};
ghost use Rattle.mf_model.specs.Stages.{disbursed_on};
ghost use Rattle.mf_model.specs.Store.{loan_at, ledger_at, account_at, loan_with_account_at, loans_at};
ghost use Rattle.mf_store_commits.specs.ChangeWrites.{schedule_put};
ghost use Rattle.mf_store_values.specs.Flat.{loan_in, line_in, ledger_entries, instalments_kept, kept_of};
ghost use Rattle.mf_store_schema.specs.Rows.{loan_row};

use crate::store::Store;
use mf_account::status::ACTIVE;
use mf_account::{Entry, LoanAccount, settled_status};
use mf_base::{Day, Fault};
use mf_catalog::{ChargeDef, Terms};
use mf_model::{Loan, LoanLine, LoanList};
use mf_office::{Account, OfficeNo};
use mf_store_commits::put_schedule;
use mf_store_schema::{EntryRow, StoreWrite};
use mf_store_values::{entries_from, is_active, is_principal_open, loan_in_row, or_give_up};
use sqlite::{Alter, Row};
use std::alloc::Global;

impl<S: Alter> Store<S> {
    ghost use Rattle.mf_store.specs.Stands.{StandsFor, IsClean, Stays, AsksTables, MayAskTables};

    /// The entries of a loan, by number; none where it isn't there.
    pub fn entries_at(&mut self, alloc: Global, loan: Account) -> Result<Vec<Entry>, Fault>
        ensures asks { AsksTables S.Store self.old self.new result }
        ensures value { IsClean S.Store self.new → (i : Institution) → StandsFor S.Store self.old i
            → IfOk result (λ list. list.items ≡ ledger_entries (ledger_at loan i)) }
    {
        let rows = self.list::<EntryRow>((loan.office.get(), loan.number.get()))?;
        entries_from(alloc, &rows)
    }

    /// The charge that a product names, if it names one.
    fn named_charge(&mut self, number: Option<u32>) -> Result<Option<ChargeDef>, Fault>
        ensures asks { MayAskTables S.Store self.old self.new result }
        ensures value { IsClean S.Store self.new → (i : Institution) → StandsFor S.Store self.old i
            → IfOk result (λ charge. charge ≡ charge_of (charge_in i.catalogue) number) }
    {
        match number {
            None => Ok(None),
            Some(number) => self.charge(number),
        }
    }

    /// The terms that a product gives its loans. Where there is no such product, the call gives up.
    pub(crate) fn terms_of(&mut self, product: u32) -> Result<Terms, Fault>
        ensures asks { MayAskTables S.Store self.old self.new result }
        ensures value { IsClean S.Store self.new → (i : Institution) → StandsFor S.Store self.old i
            → IfOk result (λ terms. terms_in i.catalogue product ≡ Some terms) }
    {
        let Some(product) = self.product(product)? else {
            return Err(Fault::F20);
        };
        let members = product.members;
        let disbursement = self.named_charge(members.disbursement_charge)?;
        let instalment = self.named_charge(members.instalment_charge)?;
        let overdue = self.named_charge(members.overdue_charge)?;
        Ok(members.terms_with(disbursement, instalment, overdue))
    }

    /// The account of a loan that was disbursed on a day and has these entries. Where it can have none, the call gives
    /// up.
    fn account_with(
        &mut self,
        alloc: Global,
        loan: &Loan,
        day: Day,
        entries: Vec<Entry>,
    ) -> Result<LoanAccount, Fault>
        ensures asks { MayAskTables S.Store self.old self.new result }
        ensures value { IsClean S.Store self.new → (i : Institution) → StandsFor S.Store self.old i
            → IfOk result (λ account. option_map account_by_replay (running_from loan.now entries.items (Some day)
            (terms_in i.catalogue loan.now.product)) ≡ Some account) }
    {
        let terms = self.terms_of(loan.product)?;
        let disbursed = mf_account::DisbursedLoan {
            terms,
            principal: loan.principal,
            periods: loan.periods,
            day,
            entries,
        };
        let found = LoanAccount::of_entries(alloc, disbursed)?;
        or_give_up(found)
    }

    /// The account of a loan that is there and was disbursed on this day, resumed from what is kept of it, its
    /// instalments among it: nothing is replayed.
    pub(crate) fn resume(
        &mut self,
        alloc: Global,
        account: Account,
        loan: &Loan,
        day: Day,
        rows: Vec<mf_alloc::Instalment>,
    ) -> Result<LoanAccount, Fault>
        requires whole { AreWhole rows.items }
        requires within { AreWithin rows.items }
        ensures asks { AsksTables S.Store self.old self.new result }
        ensures value { IsClean S.Store self.new → (i : Institution) → StandsFor S.Store self.old i → loan_at account i
            ≡ Some loan.now
            → disbursed_on loan.now.stage ≡ Some day
            → ((l : Ledger) → ledger_at account i ≡ Some l
            → rows.items ≡ of_account [] (λ a. (state_of_loan a).rows) (account_in i.catalogue l))
            → IfOk result (λ resumed. account_at account i ≡ Some resumed) }
    {
        let Account { office, number } = account;
        let terms = self.terms_of(loan.product)?;
        let entries = self.entries_at(alloc, Account { office, number })?;
        let parts = self.parts_at(alloc, Account { office, number })?;
        let disbursed = mf_account::DisbursedLoan {
            terms,
            principal: loan.principal,
            periods: loan.periods,
            day,
            entries,
        };
        let found = LoanAccount::resume(alloc, disbursed, rows, parts)?;
        or_give_up(found)
    }

    /// Adds the puts of a loan's instalments as its disbursement leaves them; none where it is not disbursed.
    pub(crate) fn put_schedule_of(
        &mut self,
        alloc: Global,
        office: u32,
        number: u32,
        loan: &Loan,
        writes: &mut Vec<StoreWrite>,
    ) -> Result<(), Fault>
        ensures kept { Stays S.Store self.old self.new }
        ensures gives_up { IfErr result (λ fault. fault ≡ F20) }
        ensures writes { IsClean S.Store self.new → (i : Institution) → StandsFor S.Store self.old i
            → OnOk result (writes.new.items ≡ writes.old.items ++ schedule_put office number
            (kept_of instalments_kept i.catalogue (record { loan = loan.now; entries = [] }))) }
        ensures more { OnOk result (length writes.old.items ≤ length writes.new.items) }
    {
        let Some(day) = loan.disbursal_day() else {
            return Ok(());
        };
        let fresh = self.account_with(alloc, loan, day, Vec::new(alloc))?;
        put_schedule(alloc, office, number, fresh.rows(), writes)
    }

    /// The account of a loan that is there and was disbursed on this day, taken out of what is known where it is known:
    /// then none of its entries is read.
    fn disbursed_account(
        &mut self,
        alloc: Global,
        account: Account,
        loan: &Loan,
        day: Day,
    ) -> Result<LoanAccount, Fault>
        ensures asks { MayAskTables S.Store self.old self.new result }
        ensures value { IsClean S.Store self.new → (i : Institution) → StandsFor S.Store self.old i → loan_at account i
            ≡ Some loan.now
            → disbursed_on loan.now.stage ≡ Some day
            → IfOk result (λ resumed. account_at account i ≡ Some resumed) }
    {
        let Account { office, number } = account;
        if let Some(known) = self.take_account(Account { office, number }) {
            return Ok(known);
        }
        let rows = self.instalments_at(alloc, Account { office, number })?;
        self.resume(alloc, Account { office, number }, loan, day, rows)
    }

    /// A loan with its account where it is disbursed, or None where there is no such loan.
    pub fn ledger(
        &mut self,
        alloc: Global,
        account: Account,
    ) -> Result<Option<(Loan, Option<LoanAccount>)>, Fault>
        ensures asks { AsksTables S.Store self.old self.new result }
        ensures value { IsClean S.Store self.new → (i : Institution) → StandsFor S.Store self.old i
            → IfOk result (λ found. found ≡ loan_with_account_at account i) }
    {
        let Account { office, number } = account;
        let Some(loan) = self.loan(Account { office, number })? else {
            return Ok(None);
        };
        let Some(day) = loan.disbursal_day() else {
            return Ok(Some((loan, None)));
        };
        let found = self.disbursed_account(alloc, Account { office, number }, &loan, day)?;
        Ok(Some((loan, Some(found))))
    }

    /// Whether the principal of the last instalment of a loan that is there is open. Where it is, so is the loan.
    fn is_last_open(&mut self, account: Account, periods: u32) -> Result<bool, Fault>
        ensures asks { AsksTables S.Store self.old self.new result }
        ensures value { IsClean S.Store self.new → (i : Institution) → StandsFor S.Store self.old i → (l : Ledger)
            → ledger_at account i ≡ Some l
            → IfOk result (λ left. left ≡ true → list_any is_open (of_account [] (λ a. (state_of_loan a).rows)
            (account_in i.catalogue l)) ≡ true) }
    {
        let office = account.office.get();
        is_principal_open(&mut self.connection, office, account.number.get(), periods)
    }

    /// The status of a loan that is there and was disbursed over so many periods. Most are told by the principal of
    /// their last instalment; all instalments are asked for where nothing is outstanding of it, and the entries where
    /// nothing is of any: none of them is replayed.
    fn disbursed_status(
        &mut self,
        alloc: Global,
        account: Account,
        periods: u32,
    ) -> Result<u16, Fault>
        ensures asks { AsksTables S.Store self.old self.new result }
        ensures value { IsClean S.Store self.new → (i : Institution) → StandsFor S.Store self.old i → (l : Ledger)
            → ledger_at account i ≡ Some l
            → (day : ℕ) → disbursed_on l.loan.stage ≡ Some day
            → IfOk result (λ status. status ≡ status_in i.catalogue l) }
    {
        let Account { office, number } = account;
        let told = self.is_last_open(Account { office, number }, periods)?;
        if told {
            return Ok(ACTIVE);
        }
        let rows = self.instalments_at(alloc, Account { office, number })?;
        if is_active(&rows) {
            return Ok(ACTIVE);
        }
        let entries = self.entries_at(alloc, Account { office, number })?;
        or_give_up(settled_status(&entries, &rows))
    }

    /// The status of a loan that is there: its stage's number, or what its account says.
    pub fn status_of(&mut self, alloc: Global, account: Account, loan: &Loan) -> Result<u16, Fault>
        ensures asks { MayAskTables S.Store self.old self.new result }
        ensures value { IsClean S.Store self.new → (i : Institution) → StandsFor S.Store self.old i → (l : Ledger)
            → ledger_at account i ≡ Some l
            → l.loan ≡ loan.now → IfOk result (λ status. status ≡ status_in i.catalogue l) }
    {
        if loan.disbursal_day().is_none() {
            return Ok(loan.stage.status());
        }
        let Account { office, number } = account;
        if let Some(known) = self.known().account(Account { office, number }) {
            return Ok(known.status());
        }
        self.disbursed_status(alloc, Account { office, number }, loan.periods)
    }

    /// The line of a loan's row, in a list of loans.
    fn line_of(&mut self, alloc: Global, row: &Row) -> Result<LoanLine, Fault>
        ensures asks { MayAskTables S.Store self.old self.new result }
        ensures value { IsClean S.Store self.new → (i : Institution) → StandsFor S.Store self.old i
            → (office number : ℕ) (l : Ledger)
            → row.now ≡ loan_row (loan_in office number l.loan)
            → ledger_at (record { office = office; number = number }) i ≡ Some l
            → IfOk result (λ line. line ≡ line_in i.catalogue office number l) }
    {
        let (account, loan) = loan_in_row(row)?;
        let Account { office, number } = account;
        let status = self.status_of(alloc, Account { office, number }, &loan)?;
        Ok(LoanLine {
            loan: Account { office, number },
            status,
        })
    }

    /// The lines of rows of loans, in order.
    fn lines_of(&mut self, alloc: Global, rows: &[Row]) -> Result<LoanList, Fault>
        ensures asks { MayAskTables S.Store self.old self.new result }
        ensures value { IsClean S.Store self.new → (i : Institution) → StandsFor S.Store self.old i
            → (office : ℕ) (ls : List (ℕ × Ledger))
            → AllByRecursion (λ l. ledger_at (record { office = office; number = l.0 }) i ≡ Some l.1) ls
            → rows.now ≡ map (λ l. loan_row (loan_in office l.0 l.1.loan)) ls
            → IfOk result (λ list. list ≡ map (λ l. line_in i.catalogue office l.0 l.1) ls) }
    {
        let mut lines = Vec::new(alloc);
        for row in rows {
            let line = self.line_of(alloc, row)?;
            lines.push(line)?;
        }
        Ok(LoanList::new(lines))
    }

    /// The first 100 loans of an office whose number is above one, by number: one query over the range of their keys,
    /// and for each disbursed one whose account isn't known that of the principal of its last instalment, of all
    /// instalments where this one isn't open, and of its entries where none is.
    pub fn loans(&mut self, alloc: Global, office: OfficeNo, after: u32) -> Result<LoanList, Fault>
        ensures asks { AsksTables S.Store self.old self.new result }
        ensures value { IsClean S.Store self.new → (i : Institution) → StandsFor S.Store self.old i
            → IfOk result (λ list. list ≡ loans_at office after i) }
    {
        let rows = self.rows_above(office.get(), after)?;
        self.lines_of(alloc, &rows)
    }
}
