//! The store as the desk sees it: each call of the trait is the store's own of that name, whose contract says more.

ghost use Rattle.std.specs.Prelude.{◌≡◌, IfOk};
ghost use Rattle.mf_model.specs.Institution.{Institution};
ghost use Rattle.mf_model.specs.Notes.{noted_now};

use crate::store::Store;
use mf_account::{LoanAccount, Receipt};
use mf_base::{Choice, Day, Fault};
use mf_catalog::{ChargeDef, Product};
use mf_model::{
    ArrearsList, CatalogueCounts, Commit, Counts, InstitutionStore, Loan, LoanList, Note,
    OfficeList, ReceiptUse, Statement,
};
use mf_office::{Account, Caller, Name, OfficeNo, Role};
use mf_statement::InstalmentList;
use mf_store_schema::{ClientRow, StaffRow};
use mf_store_values::or_give_up;
use sqlite::Alter;
use std::alloc::Global;

impl<S: Alter> Store<S> {
    ghost use Rattle.mf_model.specs.Store.{role_of, counts_at, client_at};
    ghost use Rattle.mf_store.specs.Stands.{StandsFor, IsClean, AsksTables, MayAskTables, MakesCommit};

    /// The role of a caller, or None where there is no such member of staff.
    pub fn caller(&mut self, caller: Caller) -> Result<Option<Role>, Fault>
        ensures asks { MayAskTables S.Store self.old self.new result }
        ensures value { IsClean S.Store self.new → (i : Institution) → StandsFor S.Store self.old i
            → IfOk result (λ role. role ≡ role_of caller i) }
    {
        let Caller { office, staff } = caller;
        if let Some(role) = self.known().role(Caller { office, staff }) {
            self.learn_role(Caller { office, staff }, role);
            return Ok(Some(role));
        }
        let Some(row) = self.find::<StaffRow>((office.get(), staff.get()))? else {
            return Ok(None);
        };
        let role = or_give_up(Role::from_number(row.role))?;
        self.learn_role(Caller { office, staff }, role);
        Ok(Some(role))
    }

    /// How many staff, clients and loans an office has: one less than their next numbers.
    pub fn next_numbers(&mut self, office: OfficeNo) -> Result<Counts, Fault>
        ensures asks { MayAskTables S.Store self.old self.new result }
        ensures value { IsClean S.Store self.new → (i : Institution) → StandsFor S.Store self.old i
            → IfOk result (λ counts. counts ≡ counts_at office i) }
    {
        self.counts_of(office.get())
    }

    /// The name of a client, or None where there is no such client.
    pub fn client(&mut self, client: Account) -> Result<Option<Name>, Fault>
        ensures asks { AsksTables S.Store self.old self.new result }
        ensures value { IsClean S.Store self.new → (i : Institution) → StandsFor S.Store self.old i
            → IfOk result (λ name. name ≡ client_at client i) }
    {
        match self.find::<ClientRow>((client.office.get(), client.number.get()))? {
            None => Ok(None),
            Some(record) => Ok(Some(record.name.into_name())),
        }
    }

    /// Makes a commit, with the line that notes its request where a journal is kept.
    fn make_commit(&mut self, alloc: Global, commit: Commit, note: &Note<'_>) -> Result<(), Fault>
        ensures { MakesCommit S.Store commit (noted_now note.now) self.old self.new result }
    {
        match commit {
            Commit::AddOffice {
                number,
                parent,
                name,
            } => self.add_office(alloc, number, parent, name, note),
            Commit::AddStaff { office, name, role } => {
                self.add_staff(alloc, office, name, role, note)
            }
            Commit::AddClient { office, name } => self.add_client(alloc, office, name, note),
            Commit::SetDay { day } => self.set_day(alloc, day, note),
            Commit::AddCharge {
                name,
                kind,
                calc,
                value,
            } => self.add_charge(alloc, name, kind, calc, value, note),
            Commit::AddProduct { members } => self.add_product(alloc, members, note),
            Commit::RetireProduct { product } => self.retire_product(alloc, product, note),
            Commit::AddLoan { office, loan } => self.add_loan(alloc, office, loan, note),
            Commit::SetStage { loan, stage } => self.set_stage(alloc, loan, stage, note),
            Commit::AddEntry { loan, account } => self.add_entry(alloc, loan, account, note),
            Commit::ReverseEntry { loan, seq, account } => {
                self.reverse_entry(alloc, loan, seq, account, note)
            }
        }
    }
}

impl<S: Alter> InstitutionStore for Store<S> {
    ghost use Rattle.std.proofs.Common.{inr};
    ghost use Rattle.mf_store.specs.Stands.{StandsFor, IsClean, Leaves};

    ghost stands = { λ store i. StandsFor S.Store store i };

    ghost clean = { λ store. IsClean S.Store store };

    ghost leaves = { λ store is. Leaves S.Store store is };

    fn caller(&mut self, _alloc: Global, caller: Caller) -> Result<Option<Role>, Fault> {
        self.caller(caller)
    }

    fn visible(&mut self, alloc: Global, to: OfficeNo, office: OfficeNo) -> Result<bool, Fault> {
        self.visible(alloc, to, office)
    }

    fn is_there(&mut self, _alloc: Global, office: OfficeNo) -> Result<bool, Fault> {
        self.has_office(office.get())
    }

    fn has_room_below(&mut self, _alloc: Global, office: OfficeNo) -> Result<bool, Fault> {
        self.has_room_below(office)
    }

    fn next_numbers(&mut self, _alloc: Global, office: OfficeNo) -> Result<Counts, Fault> {
        self.next_numbers(office)
    }

    fn client(&mut self, _alloc: Global, client: Account) -> Result<Option<Name>, Fault> {
        self.client(client)
    }

    fn business_day(&mut self, _alloc: Global) -> Result<Day, Fault> {
        self.business_day()
    }

    fn catalogue_counts(&mut self, _alloc: Global) -> Result<CatalogueCounts, Fault> {
        self.catalogue_counts()
    }

    fn charge(&mut self, _alloc: Global, number: u32) -> Result<Option<ChargeDef>, Fault> {
        self.charge(number)
    }

    fn product(&mut self, _alloc: Global, number: u32) -> Result<Option<Product>, Fault> {
        self.product(number)
    }

    fn loan(&mut self, _alloc: Global, loan: Account) -> Result<Option<Loan>, Fault> {
        self.loan(loan)
    }

    fn ledger(
        &mut self,
        alloc: Global,
        loan: Account,
    ) -> Result<Option<(Loan, Option<LoanAccount>)>, Fault> {
        self.ledger(alloc, loan)
    }

    fn statement(&mut self, alloc: Global, loan: Account) -> Result<Option<Statement>, Fault> {
        self.statement(alloc, loan)
    }

    fn instalments(
        &mut self,
        alloc: Global,
        loan: Account,
    ) -> Result<Option<InstalmentList>, Fault> {
        self.instalments(alloc, loan)
    }

    fn receipt(
        &mut self,
        _alloc: Global,
        office: OfficeNo,
        receipt: &Receipt,
    ) -> Result<Option<ReceiptUse>, Fault> {
        self.receipt(office, receipt)
    }

    fn loans(&mut self, alloc: Global, office: OfficeNo, after: u32) -> Result<LoanList, Fault> {
        self.loans(alloc, office, after)
    }

    fn offices(&mut self, alloc: Global, to: OfficeNo) -> Result<OfficeList, Fault> {
        self.offices(alloc, to)
    }

    fn office_lines(&mut self, alloc: Global, to: OfficeNo) -> Result<ArrearsList, Fault> {
        self.office_lines(alloc, to)
    }

    fn commit(&mut self, alloc: Global, commit: Commit, note: Note<'_>) -> Result<(), Fault> {
        let Note {
            caller,
            text,
            names,
        } = note;
        let noted = Note {
            caller,
            text,
            names,
        };
        self.make_commit(alloc, commit, &noted)
    }

    ghost sound = { λ store i stands. stands.sound };

    ghost more = { λ store i is left. record {
      ours = left.ours;
      whole = λ clean trees may. inr (left.whole clean trees may);
    } };
}
