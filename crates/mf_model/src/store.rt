//! The trait between store and desk: what is read of an institution, and its commits.

use crate::commit::Commit;
use crate::listing::{ArrearsList, LoanList, OfficeList};
use crate::loan::{Loan, ReceiptUse, Statement};
use crate::note::Note;
use mf_account::{LoanAccount, Receipt};
use mf_base::{Day, Fault};
use mf_catalog::{ChargeDef, Product};
use mf_office::{Account, Caller, Name, OfficeNo, Role};
use mf_statement::InstalmentList;
use std::alloc::Global;

/// How many rows an office has.
#[derive(Clone, Copy, PartialEq, Eq)]
pub struct Counts {
    pub staff: u32,
    pub clients: u32,
    pub loans: u32,
}

/// The most charges that the catalogue may have, and the most products.
pub const MOST_IN_CATALOGUE: u32 = 999;

/// How many charges and products the catalogue has.
#[derive(Clone, Copy, PartialEq, Eq)]
pub struct CatalogueCounts {
    pub charges: u32,
    pub products: u32,
}

/// A store of one institution. Each call answers what the institution says, or gives up with F20 and has changed
/// nothing. What is said of values holds as long as the disk has returned what was written (`clean`). A store whose
/// disk has failed may be shut: then it stands for whatever it stood for before, and gives up at every call but a
/// reading of what it knows beside its tables.
pub trait InstitutionStore {
    ghost use Rattle.std.specs.Prelude.{◌≡◌, ℕ, List, ◌∷◌, map, is_some, true};
    ghost use Rattle.mf_office.specs.Tree.{is_within};
    ghost use Rattle.mf_model.specs.Institution.{Institution, charge_in, product_in};
    ghost use Rattle.mf_model.specs.Tree.{parent_of, seen_by, seen_office, is_there};
    ghost use Rattle.mf_model.specs.Desk.{office_shown};
    ghost use Rattle.mf_model.specs.Arrears.{arrears_seen};
    ghost use Rattle.mf_model.specs.Sound.{IsSound};
    ghost use Rattle.mf_model.specs.Notes.{noted_now};
    ghost use Rattle.mf_model.specs.Store.{Reads, Commits, role_of, counts_at, client_at, catalogue_counts, loan_at};
    ghost use Rattle.mf_model.specs.Store.{loan_with_account_at, statement_at, instalments_at, receipt_at, loans_at};

    /// The store stands for this institution.
    ghost stands: { Self → Institution → Type 0 };

    /// So far the disk has returned what was written.
    ghost clean: { Self → Type 0 };

    /// A stop at this moment leaves one of these institutions, whole.
    ghost leaves: { Self → List Institution → Type 0 };

    /// The role of a caller, or None where there is no such member of staff.
    fn caller(&mut self, alloc: Global, caller: Caller) -> Result<Option<Role>, Fault>
        ensures { Reads stands clean leaves (role_of caller) self.old self.new result };

    /// Whether an office is there and at or below another.
    fn visible(&mut self, alloc: Global, to: OfficeNo, office: OfficeNo) -> Result<bool, Fault>
        ensures { Reads stands clean leaves (λ i. is_some (seen_office to office i)) self.old self.new result };

    /// Whether an office is there.
    fn is_there(&mut self, alloc: Global, office: OfficeNo) -> Result<bool, Fault>
        ensures { Reads stands clean leaves (λ i. is_there i.offices office) self.old self.new result };

    /// Whether an office that is there has room below it: it is less than six deep, the head being one.
    fn has_room_below(&mut self, alloc: Global, office: OfficeNo) -> Result<bool, Fault>
        ensures { Reads stands clean leaves (λ i. is_within 4 (parent_of i.offices) office 1) self.old self.new
            result };

    /// How many rows an office has; 0 where it isn't there.
    fn next_numbers(&mut self, alloc: Global, office: OfficeNo) -> Result<Counts, Fault>
        ensures { Reads stands clean leaves (counts_at office) self.old self.new result };

    /// The name of a client, or None where there is no such client.
    fn client(&mut self, alloc: Global, client: Account) -> Result<Option<Name>, Fault>
        ensures { Reads stands clean leaves (client_at client) self.old self.new result };

    /// The business day.
    fn business_day(&mut self, alloc: Global) -> Result<Day, Fault>
        ensures { Reads stands clean leaves (λ i. i.catalogue.day) self.old self.new result };

    /// How many charges and products the catalogue has.
    fn catalogue_counts(&mut self, alloc: Global) -> Result<CatalogueCounts, Fault>
        ensures { Reads stands clean leaves catalogue_counts self.old self.new result };

    /// A charge, or None where the catalogue has none with this number.
    fn charge(&mut self, alloc: Global, number: u32) -> Result<Option<ChargeDef>, Fault>
        ensures { Reads stands clean leaves (λ i. charge_in i.catalogue number) self.old self.new result };

    /// A product, or None where the catalogue has none with this number.
    fn product(&mut self, alloc: Global, number: u32) -> Result<Option<Product>, Fault>
        ensures { Reads stands clean leaves (λ i. product_in i.catalogue number) self.old self.new result };

    /// A loan, or None where there is no such loan.
    fn loan(&mut self, alloc: Global, loan: Account) -> Result<Option<Loan>, Fault>
        ensures { Reads stands clean leaves (loan_at loan) self.old self.new result };

    /// A loan with its account where it is disbursed, or None where there is no such loan.
    fn ledger(
        &mut self,
        alloc: Global,
        loan: Account,
    ) -> Result<Option<(Loan, Option<LoanAccount>)>, Fault>
        ensures { Reads stands clean leaves (loan_with_account_at loan) self.old self.new result };

    /// A loan as it is shown, or None where there is no such loan.
    fn statement(&mut self, alloc: Global, loan: Account) -> Result<Option<Statement>, Fault>
        ensures { Reads stands clean leaves (statement_at loan) self.old self.new result };

    /// The instalments of a loan, none before it is disbursed, or None where there is no such loan.
    fn instalments(&mut self, alloc: Global, loan: Account) -> Result<Option<InstalmentList>, Fault>
        ensures { Reads stands clean leaves (instalments_at loan) self.old self.new result };

    /// The entry that carries a receipt of an office, or None where none does.
    fn receipt(
        &mut self,
        alloc: Global,
        office: OfficeNo,
        receipt: &Receipt,
    ) -> Result<Option<ReceiptUse>, Fault>
        ensures { Reads stands clean leaves (receipt_at office receipt.now) self.old self.new result };

    /// The first 100 loans of an office whose number is above one, by number; none where the office isn't there.
    fn loans(&mut self, alloc: Global, office: OfficeNo, after: u32) -> Result<LoanList, Fault>
        ensures { Reads stands clean leaves (loans_at office after) self.old self.new result };

    /// The offices at or below one, by number.
    fn offices(&mut self, alloc: Global, to: OfficeNo) -> Result<OfficeList, Fault>
        ensures { Reads stands clean leaves (λ i. map office_shown (seen_by to i.offices)) self.old self.new result };

    /// The active loans of each office at or below one, on the business day: a line an office, by number.
    fn office_lines(&mut self, alloc: Global, to: OfficeNo) -> Result<ArrearsList, Fault>
        ensures { Reads stands clean leaves (arrears_seen to) self.old self.new result };

    /// Makes a change that leaves the institution sound. Where it hands on an account, that is the loan's after the
    /// change. Where a journal is kept, it notes the request in the same commit.
    fn commit(&mut self, alloc: Global, commit: Commit, note: Note<'_>) -> Result<(), Fault>
        ensures { Commits stands clean leaves commit (noted_now note.entry) self.old self.new result };

    /// An institution that a store stands for is sound.
    ghost sound: { (store : Self) (i : Institution) → stands store i → IsSound i };

    /// A stop that leaves one of these leaves one of these or another.
    ghost more: { (store : Self) (i : Institution) (is : List Institution) → leaves store is → leaves store (i ∷ is) };
}
