//! Loans as they were submitted, with their stages: by number, and the commits that change them.

ghost use Rattle.std.specs.Prelude.{◌≡◌, ◌+◌, ◌<◌, [], ◌∷◌, length, true, Option, None, Some, IfOk, IfErr};
ghost use Rattle.mf_base.specs.declared.fault.Fault.TheVariants.{F20};
ghost use Rattle.mf_model.specs.Institution.{Institution};
ghost use Rattle.mf_model.specs.Notes.{noted_now};
ghost use Rattle.mf_model.specs.Sound.{IsSound};
ghost use Rattle.mf_model.specs.Stages.{disbursed_on};
ghost use Rattle.mf_model.specs.Store.{loan_at, rows_at, IsAdmitted};
ghost use Rattle.mf_model.specs.Tree.{is_there};
ghost use Rattle.mf_model.specs.declared.commit.Commit.TheVariants.{AddLoan, SetStage};
ghost use Rattle.mf_store_commits.specs.Suiting.{Carries};

use crate::counts::MOST;
use crate::known::News;
use crate::store::Store;
use mf_base::Fault;
use mf_model::{Counts, Loan, Note, Stage};
use mf_office::{Account, OfficeNo};
use mf_store_commits::{loan_row, with_stage};
use mf_store_schema::{LoanRow, StoreWrite};
use mf_store_values::loan_from;
use sqlite::Alter;
use std::alloc::Global;

/// The write that adds a loan to an office that is there, where this is the number of its next loan.
fn new_loan(alloc: Global, office: u32, number: u32, loan: Loan) -> Result<StoreWrite, Fault>
    ensures carries { IfOk result (λ write. (i : Institution) → IsSound i → IsAdmitted (AddLoan office loan) i
        → is_there i.offices office ≡ true → number ≡ length (rows_at office i).loans + 1
        → disbursed_on loan.stage ≡ None → Carries (AddLoan office loan) (write ∷ []) i) }
    ensures gives_up { IfErr result (λ fault. fault ≡ F20) }
{
    let row = loan_row(alloc, office, number, loan)?;
    Ok(StoreWrite::AddLoan(row))
}

impl<S: Alter> Store<S> {
    ghost use Rattle.mf_store.specs.Stands.{StandsFor, IsClean, Stays, AsksTables, MakesCommit};

    /// A loan, or None where there is no such loan.
    pub fn loan(&mut self, loan: Account) -> Result<Option<Loan>, Fault>
        ensures asks { AsksTables S.Store self.old self.new result }
        ensures value { IsClean S.Store self.new → (i : Institution) → StandsFor S.Store self.old i
            → IfOk result (λ found. found ≡ loan_at loan i) }
    {
        let Some(row) = self.find::<LoanRow>((loan.office.get(), loan.number.get()))? else {
            return Ok(None);
        };
        let found = loan_from(row)?;
        Ok(Some(found))
    }

    /// Adds a loan of an office that is there, under the next number. It is not disbursed; where it is, the call gives
    /// up.
    pub(crate) fn add_loan(
        &mut self,
        alloc: Global,
        office: OfficeNo,
        loan: Loan,
        note: &Note<'_>,
    ) -> Result<(), Fault>
        ensures { MakesCommit S.Store (AddLoan office loan) (noted_now note.now) self.old self.new result }
    {
        let office = office.get();
        let counts = self.counts_there(office)?;
        if counts.loans > MOST || loan.disbursal_day().is_some() {
            return Err(Fault::F20);
        }
        let number = counts.loans + 1;
        let write = new_loan(alloc, office, number, loan)?;
        let now = Counts {
            loans: number,
            ..counts
        };
        self.make(alloc, &[write], News::OfficeCounts(office, now), note)
    }

    /// The writes that bring a loan that is there to a stage: its row, and its instalments where that disburses it.
    /// Where it was disbursed before, the call gives up.
    fn stage_writes(
        &mut self,
        alloc: Global,
        loan: Account,
        stage: Stage,
    ) -> Result<Vec<StoreWrite>, Fault>
        ensures kept { Stays S.Store self.old self.new }
        ensures gives_up { IfErr result (λ fault. fault ≡ F20) }
        ensures some { IfOk result (λ writes. 0 < length writes.items) }
        ensures carries { IsClean S.Store self.new → (i : Institution) → StandsFor S.Store self.old i
            → IsAdmitted (SetStage loan stage) i → IfOk result (λ writes. Carries (SetStage loan stage) writes.items
            i) }
    {
        let Account { office, number } = loan;
        let Some(before) = self.loan(Account { office, number })? else {
            return Err(Fault::F20);
        };
        if before.disbursal_day().is_some() {
            return Err(Fault::F20);
        }
        let now = with_stage(&before, stage);
        let office = office.get();
        let number = number.get();
        let row = loan_row(alloc, office, number, now)?;
        let mut writes = Vec::new(alloc);
        writes.push(StoreWrite::PutLoan(row))?;
        self.put_schedule_of(alloc, office, number, &now, &mut writes)?;
        Ok(writes)
    }

    /// Brings a loan that is there to a stage, and writes its instalments where that disburses it. Where it was
    /// disbursed before, the call gives up.
    pub(crate) fn set_stage(
        &mut self,
        alloc: Global,
        loan: Account,
        stage: Stage,
        note: &Note<'_>,
    ) -> Result<(), Fault>
        ensures { MakesCommit S.Store (SetStage loan stage) (noted_now note.now) self.old self.new result }
    {
        let Account { office, number } = loan;
        let writes = self.stage_writes(alloc, Account { office, number }, stage)?;
        self.make(
            alloc,
            &writes,
            News::Account(Account { office, number }),
            note,
        )
    }
}
