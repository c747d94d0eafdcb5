//! What is shown of one loan: read off its account where that is known, else off its instalments while something of it
//! is outstanding, else off its account.

ghost use Rattle.std.specs.Prelude.{◌≡◌, [], true, Some, IfOk, IsOkUnless};
ghost use Rattle.mf_base.specs.declared.fault.Fault.TheVariants.{F20};
ghost use Rattle.mf_statement.specs.Lines.{instalments_from};
ghost use Rattle.std.specs.List.{list_any};
ghost use Rattle.mf_alloc.specs.Sums.{AreWhole, AreWithin, is_open};
ghost use Rattle.mf_account.specs.Loan.{state_of_loan};
ghost use Rattle.mf_office.specs.declared.account.Account.{Account};
ghost use Rattle.mf_model.specs.Accounts.{account_in, balances_in, of_account, statement};
ghost use Rattle.mf_model.specs.Institution.{Institution, Ledger};
ghost use Rattle.mf_model.specs.Stages.{disbursed_on};
ghost use Rattle.mf_model.specs.Store.{ledger_at, statement_at, instalments_at};

use crate::store::Store;
use mf_account::status::ACTIVE;
use mf_account::{Balances, open_balances};
use mf_alloc::Instalment;
use mf_base::{Day, Fault};
use mf_model::{Loan, Statement};
use mf_office::Account;
use mf_statement::{InstalmentList, instalment_lines, instalment_lines_of_rows};
use mf_store_values::{is_active, or_give_up};
use sqlite::Alter;
use std::alloc::Global;

/// Instalments that were read, as they stand. F20 is also for such as are no loan's.
fn lines_of_rows(alloc: Global, rows: &[Instalment]) -> Result<InstalmentList, Fault>
    ensures lines { IfOk result (λ lines. lines ≡ instalments_from 1 rows.now) }
    ensures only { IsOkUnless result Fault.F20 }
{
    let told = instalment_lines_of_rows(alloc, rows)?;
    or_give_up(told)
}

impl<S: Alter> Store<S> {
    ghost use Rattle.mf_store.specs.Stands.{StandsFor, IsClean, AsksTables, MayAskTables};

    /// The sums of a loan that was disbursed on a day and of whose instalments, which these are, something is
    /// outstanding: no entry of it is read.
    fn balances_of_open(
        &mut self,
        alloc: Global,
        loan: &Loan,
        day: Day,
        rows: &[Instalment],
    ) -> Result<Balances, Fault>
        requires whole { AreWhole rows.now }
        requires within { AreWithin rows.now }
        requires open { list_any is_open rows.now ≡ true }
        ensures asks { MayAskTables S.Store self.old self.new result }
        ensures value { IsClean S.Store self.new → (i : Institution) → StandsFor S.Store self.old i
            → (account : Account) (l : Ledger)
            → ledger_at account i ≡ Some l → l.loan ≡ loan.now → disbursed_on loan.now.stage ≡ Some day
            → rows.now ≡ of_account [] (λ a. (state_of_loan a).rows) (account_in i.catalogue l)
            → IfOk result (λ sums. sums ≡ balances_in i.catalogue l) }
    {
        let terms = self.terms_of(loan.product)?;
        let found = open_balances(alloc, &terms, loan.principal, loan.periods, day, rows)?;
        or_give_up(found)
    }

    /// A loan that is there and was disbursed on a day, as it is shown.
    fn disbursed_statement(
        &mut self,
        alloc: Global,
        account: Account,
        loan: &Loan,
        day: Day,
    ) -> Result<Statement, Fault>
        ensures asks { AsksTables S.Store self.old self.new result }
        ensures value { IsClean S.Store self.new → (i : Institution) → StandsFor S.Store self.old i → (l : Ledger)
            → ledger_at account i ≡ Some l → l.loan ≡ loan.now → disbursed_on loan.now.stage ≡ Some day
            → IfOk result (λ told. told ≡ statement i.catalogue l) }
    {
        let Account { office, number } = account;
        let rows = self.instalments_at(alloc, Account { office, number })?;
        if is_active(&rows) {
            let sums = self.balances_of_open(alloc, loan, day, &rows)?;
            return Ok(Statement::with(loan, ACTIVE, sums));
        }
        let resumed = self.resume(alloc, Account { office, number }, loan, day, rows)?;
        Ok(Statement::of(loan, &Some(resumed)))
    }

    /// A loan as it is shown, or None where there is no such loan. Where its account isn't known its entries are read
    /// only where nothing of it is outstanding.
    pub fn statement(&mut self, alloc: Global, account: Account) -> Result<Option<Statement>, Fault>
        ensures asks { AsksTables S.Store self.old self.new result }
        ensures value { IsClean S.Store self.new → (i : Institution) → StandsFor S.Store self.old i
            → IfOk result (λ told. told ≡ statement_at account i) }
    {
        let Account { office, number } = account;
        let Some(loan) = self.loan(Account { office, number })? else {
            return Ok(None);
        };
        let Some(day) = loan.disbursal_day() else {
            return Ok(Some(Statement::of(&loan, &None)));
        };
        if let Some(known) = self.known().account(Account { office, number }) {
            return Ok(Some(Statement::with(&loan, known.status(), known.balances())));
        }
        let told = self.disbursed_statement(alloc, Account { office, number }, &loan, day)?;
        Ok(Some(told))
    }

    /// The instalments of a loan as they are read of the tables. Its row is looked for only where it has none.
    fn read_instalments(
        &mut self,
        alloc: Global,
        account: Account,
    ) -> Result<Option<InstalmentList>, Fault>
        ensures asks { AsksTables S.Store self.old self.new result }
        ensures value { IsClean S.Store self.new → (i : Institution) → StandsFor S.Store self.old i
            → IfOk result (λ lines. lines ≡ instalments_at account i) }
    {
        let Account { office, number } = account;
        let rows = self.instalments_at(alloc, Account { office, number })?;
        if rows.is_empty() && self.loan(Account { office, number })?.is_none() {
            return Ok(None);
        }
        let lines = lines_of_rows(alloc, &rows)?;
        Ok(Some(lines))
    }

    /// The instalments of a loan as they stand, none before it is disbursed, or None where there is no such loan: no
    /// entry of it is read, and where its account is known no instalment.
    pub fn instalments(
        &mut self,
        alloc: Global,
        account: Account,
    ) -> Result<Option<InstalmentList>, Fault>
        ensures asks { AsksTables S.Store self.old self.new result }
        ensures value { IsClean S.Store self.new → (i : Institution) → StandsFor S.Store self.old i
            → IfOk result (λ lines. lines ≡ instalments_at account i) }
    {
        let Account { office, number } = account;
        let Some(known) = self.known().account(Account { office, number }) else {
            return self.read_instalments(alloc, Account { office, number });
        };
        let lines = instalment_lines(alloc, known)?;
        // Where it is shut, the store tells nothing of its loans, whatever it knows.
        self.see_open()?;
        Ok(Some(lines))
    }
}
