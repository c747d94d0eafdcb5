//! An institution in vectors, over which the tests of the desk and of the wire run. Of it nothing is proved but that
//! it is safe.

ghost use Rattle.std.specs.Prelude.{◌≡◌, IfOk, IfErr};
ghost use Rattle.mf_office.specs.Numbers.{IsNumberUpTo};

use crate::row::Row;
use mf_account::{LoanAccount, Receipt};
use mf_arrears::OfficeLine;
use mf_base::{Day, Fault};
use mf_catalog::{Calc, ChargeDef, ChargeKind, Product, ProductMembers, Terms};
use mf_model::{
    ArrearsList, CatalogueCounts, Commit, Counts, InstitutionStore, Loan, LoanLine, LoanList, Note,
    OfficeList, ReceiptUse, Stage, Statement,
};
use mf_office::{Account, AccountNo, Caller, Name, Office, OfficeNo, Role};
use mf_statement::{InstalmentList, instalment_lines};
use std::alloc::Global;

struct Branch {
    office: Office,
    staff: Vec<Role>,
    clients: Vec<Name>,
    loans: Vec<Row>,
}

// By hand, since a derived drop is proved again in each function that may drop one.
impl Drop for Branch {
    fn drop(self) {
        let Branch {
            office: _,
            staff: _,
            clients: _,
            loans: _,
        } = self;
    }
}

/// The catalogue, and the offices by number. One of its calls can be made to give up.
pub struct Books {
    day: Day,
    charges: Vec<ChargeDef>,
    products: Vec<Product>,
    branches: Vec<Branch>,
    calls_to_refusal: Option<u32>,
}

// By hand, since a derived drop is proved again in each function that may drop one.
impl Drop for Books {
    fn drop(self) {
        let Books {
            day: _,
            charges: _,
            products: _,
            branches: _,
            calls_to_refusal: _,
        } = self;
    }
}

/// The office of a number; F1 where no office can have it.
fn office_no(number: u32) -> Result<OfficeNo, Fault>
    ensures { IfOk result (IsNumberUpTo 9999) }
{
    let Some(office) = OfficeNo::new(number) else {
        return Err(Fault::F1);
    };
    // The number's bound, for the proof of the clause.
    let _number = office.get();
    Ok(office)
}

impl Books {
    /// The head office with its manager, on a day.
    pub fn new(alloc: Global, day: Day) -> Result<Books, Fault> {
        let mut staff = Vec::new(alloc);
        staff.push(Role::Manager)?;
        let office = Office {
            number: office_no(1)?,
            parent: None,
            name: Name::new(String::from_str(alloc, "Head Office")?),
        };
        let mut branches = Vec::new(alloc);
        branches.push(Branch {
            office,
            staff,
            clients: Vec::new(alloc),
            loans: Vec::new(alloc),
        })?;
        Ok(Books {
            day,
            charges: Vec::new(alloc),
            products: Vec::new(alloc),
            branches,
            calls_to_refusal: None,
        })
    }

    /// After so many further calls one gives up.
    pub fn refuse_after(&mut self, calls: u32) {
        self.calls_to_refusal = Some(calls);
    }

    /// Gives up if the call is the one that is to.
    fn count_call(&mut self) -> Result<(), Fault>
        ensures { IfErr result (λ fault. fault ≡ Fault.F20) }
    {
        match self.calls_to_refusal {
            None => Ok(()),
            Some(0) => {
                self.calls_to_refusal = None;
                Err(Fault::F20)
            }
            Some(calls) => {
                self.calls_to_refusal = Some(calls - 1);
                Ok(())
            }
        }
    }

    fn find(&self, number: OfficeNo) -> Option<&Branch> {
        self.branches
            .iter()
            .find(|branch| branch.office.number == number)
    }

    /// Whether `above` is the office, or one of so many next above it.
    fn is_within(&self, steps: u32, number: OfficeNo, above: OfficeNo) -> bool {
        let mut at = number;
        for _ in 0..steps {
            if at == above {
                return true;
            }
            let Some(branch) = self.find(at) else {
                return false;
            };
            let Some(parent) = branch.office.parent else {
                return false;
            };
            at = parent;
        }
        at == above
    }

    fn add_office(
        &mut self,
        alloc: Global,
        number: OfficeNo,
        parent: OfficeNo,
        name: Name,
    ) -> Result<(), Fault>
        ensures { IfErr result (λ fault. fault ≡ Fault.F20) }
    {
        let at = self
            .branches
            .iter()
            .position(|branch| branch.office.number.get() > number.get())
            .unwrap_or(self.branches.len());
        let branch = Branch {
            office: Office {
                number,
                parent: Some(parent),
                name,
            },
            staff: Vec::new(alloc),
            clients: Vec::new(alloc),
            loans: Vec::new(alloc),
        };
        self.branches.insert(at, branch)?;
        Ok(())
    }

    fn add_staff(&mut self, office: OfficeNo, role: Role) -> Result<(), Fault>
        ensures { IfErr result (λ fault. fault ≡ Fault.F20) }
    {
        if let Some(branch) = self.branch_mut(office) {
            branch.staff.push(role)?;
        }
        Ok(())
    }

    fn add_client(&mut self, office: OfficeNo, name: Name) -> Result<(), Fault>
        ensures { IfErr result (λ fault. fault ≡ Fault.F20) }
    {
        if let Some(branch) = self.branch_mut(office) {
            branch.clients.push(name)?;
        }
        Ok(())
    }

    fn add_charge(
        &mut self,
        name: Name,
        kind: ChargeKind,
        calc: Calc,
        value: u64,
    ) -> Result<(), Fault>
        ensures { IfErr result (λ fault. fault ≡ Fault.F20) }
    {
        let number = number_after(self.charges.len())?;
        self.charges.push(ChargeDef {
            number,
            name,
            kind,
            calc,
            value,
        })?;
        Ok(())
    }

    fn add_product(&mut self, members: ProductMembers) -> Result<(), Fault>
        ensures { IfErr result (λ fault. fault ≡ Fault.F20) }
    {
        let number = number_after(self.products.len())?;
        self.products.push(Product {
            number,
            members,
            retired: false,
        })?;
        Ok(())
    }

    fn find_product(&self, number: u32) -> Option<&Product> {
        self.products
            .iter()
            .find(|product| product.number == number)
    }

    fn retire(&mut self, number: u32) {
        for product in self.products.iter_mut() {
            if product.number == number {
                product.retired = true;
            }
        }
    }

    fn branch_mut(&mut self, office: OfficeNo) -> Option<&mut Branch> {
        self.branches
            .iter_mut()
            .find(|branch| branch.office.number == office)
    }

    fn add_loan(&mut self, office: OfficeNo, loan: Row) -> Result<(), Fault>
        ensures { IfErr result (λ fault. fault ≡ Fault.F20) }
    {
        if let Some(branch) = self.branch_mut(office) {
            branch.loans.push(loan)?;
        }
        Ok(())
    }

    fn loan_mut(&mut self, loan: Account) -> Option<&mut Row> {
        let place = loan.number.get() - 1;
        self.branch_mut(loan.office)?.loans.get_mut(place as usize)
    }

    fn set_stage(&mut self, loan: Account, stage: Stage) {
        if let Some(row) = self.loan_mut(loan) {
            row.set_stage(stage);
        }
    }

    fn enter(&mut self, loan: Account, account: LoanAccount) {
        if let Some(row) = self.loan_mut(loan) {
            row.enter(account);
        }
    }

    fn find_loan(&self, loan: Account) -> Option<&Row> {
        let branch = self.find(loan.office)?;
        let place = loan.number.get() - 1;
        branch.loans.get(place as usize)
    }

    /// A loan with its account, replayed; None where there is no such loan.
    fn replay(
        &self,
        alloc: Global,
        loan: Account,
    ) -> Result<Option<(Loan, Option<LoanAccount>)>, Fault>
        ensures { IfErr result (λ fault. fault ≡ Fault.F20) }
    {
        let Some(row) = self.find_loan(loan) else {
            return Ok(None);
        };
        let account = row.account(alloc, self.terms(row.product)?)?;
        Ok(Some((row.loan(), account)))
    }

    fn find_receipt(&self, office: OfficeNo, receipt: &Receipt) -> Option<ReceiptUse> {
        let branch = self.find(office)?;
        let mut number: u32 = 0;
        for row in &branch.loans {
            number = number.wrapping_add(1);
            if let Some(loan) = AccountNo::new(number) {
                if let Some(used) = row.receipt_use(loan, receipt) {
                    return Some(used);
                }
            }
        }
        None
    }

    /// The line of a branch's active loans, on the business day.
    fn arrears_line(&self, alloc: Global, branch: &Branch) -> Result<OfficeLine, Fault>
        ensures { IfErr result (λ fault. fault ≡ Fault.F20) }
    {
        let mut line = OfficeLine::new(branch.office.number);
        for loan in &branch.loans {
            loan.age(alloc, self.terms(loan.product)?, self.day, &mut line)?;
        }
        Ok(line)
    }

    /// A copy of the charge that is named, if one is.
    fn named_charge(&self, number: Option<u32>) -> Result<Option<ChargeDef>, Fault>
        ensures { IfErr result (λ fault. fault ≡ Fault.F20) }
    {
        let Some(number) = number else {
            return Ok(None);
        };
        match self.charges.iter().find(|charge| charge.number == number) {
            Some(charge) => Ok(Some(charge.clone()?)),
            None => Ok(None),
        }
    }

    /// The terms of a product; F20 where it isn't there.
    fn terms(&self, product: u32) -> Result<Terms, Fault>
        ensures { IfErr result (λ fault. fault ≡ Fault.F20) }
    {
        let members = &self.find_product(product).ok_or(Fault::F20)?.members;
        let disbursement = self.named_charge(members.disbursement_charge)?;
        let instalment = self.named_charge(members.instalment_charge)?;
        let overdue = self.named_charge(members.overdue_charge)?;
        Ok(members.terms_with(disbursement, instalment, overdue))
    }
}

/// The next number after so many.
fn number_after(used: usize) -> Result<u32, Fault>
    ensures { IfErr result (λ fault. fault ≡ Fault.F20) }
{
    match u32::try_from(used) {
        Ok(used) if used < u32::MAX => Ok(used + 1),
        _ => Err(Fault::F20),
    }
}

impl InstitutionStore for Books {
    ghost stands = { λ _ _. ⊥ };

    ghost clean = { λ _. Unit {0} };

    ghost leaves = { λ _ _. ⊥ };

    ghost sound = { λ _ _ h. absurd h };

    ghost more = { λ _ _ _ h. absurd h };

    fn caller(&mut self, _alloc: Global, caller: Caller) -> Result<Option<Role>, Fault> {
        self.count_call()?;
        let Some(branch) = self.find(caller.office) else {
            return Ok(None);
        };
        let place = caller.staff.get() - 1;
        Ok(branch.staff.get(place as usize).copied())
    }

    fn visible(&mut self, _alloc: Global, to: OfficeNo, office: OfficeNo) -> Result<bool, Fault> {
        self.count_call()?;
        Ok(self.find(office).is_some() && self.is_within(5, office, to))
    }

    fn is_there(&mut self, _alloc: Global, office: OfficeNo) -> Result<bool, Fault> {
        self.count_call()?;
        Ok(self.find(office).is_some())
    }

    fn has_room_below(&mut self, _alloc: Global, office: OfficeNo) -> Result<bool, Fault> {
        self.count_call()?;
        let Some(head) = OfficeNo::new(1) else {
            return Err(Fault::F20);
        };
        Ok(self.is_within(4, office, head))
    }

    fn next_numbers(&mut self, _alloc: Global, office: OfficeNo) -> Result<Counts, Fault> {
        self.count_call()?;
        let Some(branch) = self.find(office) else {
            return Ok(Counts {
                staff: 0,
                clients: 0,
                loans: 0,
            });
        };
        let (Ok(staff), Ok(clients), Ok(loans)) = (
            u32::try_from(branch.staff.len()),
            u32::try_from(branch.clients.len()),
            u32::try_from(branch.loans.len()),
        ) else {
            return Err(Fault::F20);
        };
        Ok(Counts {
            staff,
            clients,
            loans,
        })
    }

    fn client(&mut self, _alloc: Global, client: Account) -> Result<Option<Name>, Fault> {
        self.count_call()?;
        let Some(branch) = self.find(client.office) else {
            return Ok(None);
        };
        let place = client.number.get() - 1;
        let Some(found) = branch.clients.get(place as usize) else {
            return Ok(None);
        };
        Ok(Some(found.clone()?))
    }

    fn business_day(&mut self, _alloc: Global) -> Result<Day, Fault> {
        self.count_call()?;
        Ok(self.day)
    }

    fn catalogue_counts(&mut self, _alloc: Global) -> Result<CatalogueCounts, Fault> {
        self.count_call()?;
        let (Ok(charges), Ok(products)) = (
            u32::try_from(self.charges.len()),
            u32::try_from(self.products.len()),
        ) else {
            return Err(Fault::F20);
        };
        Ok(CatalogueCounts { charges, products })
    }

    fn charge(&mut self, _alloc: Global, number: u32) -> Result<Option<ChargeDef>, Fault> {
        self.count_call()?;
        self.named_charge(Some(number))
    }

    fn product(&mut self, _alloc: Global, number: u32) -> Result<Option<Product>, Fault> {
        self.count_call()?;
        match self.find_product(number) {
            Some(product) => Ok(Some(product.clone()?)),
            None => Ok(None),
        }
    }

    fn loan(&mut self, _alloc: Global, loan: Account) -> Result<Option<Loan>, Fault> {
        self.count_call()?;
        match self.find_loan(loan) {
            Some(row) => Ok(Some(row.loan())),
            None => Ok(None),
        }
    }

    fn ledger(
        &mut self,
        alloc: Global,
        loan: Account,
    ) -> Result<Option<(Loan, Option<LoanAccount>)>, Fault> {
        self.count_call()?;
        self.replay(alloc, loan)
    }

    fn statement(&mut self, alloc: Global, loan: Account) -> Result<Option<Statement>, Fault> {
        self.count_call()?;
        let Some((loan, account)) = self.replay(alloc, loan)? else {
            return Ok(None);
        };
        Ok(Some(Statement::of(&loan, &account)))
    }

    fn instalments(
        &mut self,
        alloc: Global,
        loan: Account,
    ) -> Result<Option<InstalmentList>, Fault> {
        self.count_call()?;
        let Some((_, account)) = self.replay(alloc, loan)? else {
            return Ok(None);
        };
        match account {
            None => Ok(Some(InstalmentList::new(Vec::new(alloc)))),
            Some(account) => Ok(Some(instalment_lines(alloc, &account)?)),
        }
    }

    fn receipt(
        &mut self,
        _alloc: Global,
        office: OfficeNo,
        receipt: &Receipt,
    ) -> Result<Option<ReceiptUse>, Fault> {
        self.count_call()?;
        Ok(self.find_receipt(office, receipt))
    }

    fn loans(&mut self, alloc: Global, office: OfficeNo, after: u32) -> Result<LoanList, Fault> {
        self.count_call()?;
        let mut lines = Vec::new(alloc);
        if let Some(branch) = self.find(office) {
            let mut number = 0u32;
            for loan in &branch.loans {
                let Some(next) = AccountNo::new(number.saturating_add(1)) else {
                    return Err(Fault::F20);
                };
                number = next.get();
                if number > after && lines.len() < 100 {
                    lines.push(LoanLine {
                        loan: Account {
                            office,
                            number: next,
                        },
                        status: loan.status(alloc, self.terms(loan.product)?)?,
                    })?;
                }
            }
        }
        Ok(LoanList::new(lines))
    }

    fn offices(&mut self, alloc: Global, to: OfficeNo) -> Result<OfficeList, Fault> {
        self.count_call()?;
        let mut offices = Vec::new(alloc);
        for branch in &self.branches {
            if self.is_within(5, branch.office.number, to) {
                offices.push(Office {
                    number: branch.office.number,
                    parent: branch.office.parent,
                    name: branch.office.name.clone()?,
                })?;
            }
        }
        Ok(OfficeList::new(offices))
    }

    fn office_lines(&mut self, alloc: Global, to: OfficeNo) -> Result<ArrearsList, Fault> {
        self.count_call()?;
        let mut lines = Vec::new(alloc);
        for branch in &self.branches {
            if self.is_within(5, branch.office.number, to) {
                lines.push(self.arrears_line(alloc, branch)?)?;
            }
        }
        Ok(ArrearsList::new(lines))
    }

    fn commit(&mut self, alloc: Global, commit: Commit, _note: Note<'_>) -> Result<(), Fault> {
        self.count_call()?;
        match commit {
            Commit::AddOffice {
                number,
                parent,
                name,
            } => self.add_office(alloc, number, parent, name),
            Commit::AddStaff { office, role, .. } => self.add_staff(office, role),
            Commit::AddClient { office, name } => self.add_client(office, name),
            Commit::SetDay { day } => {
                self.day = day;
                Ok(())
            }
            Commit::AddCharge {
                name,
                kind,
                calc,
                value,
            } => self.add_charge(name, kind, calc, value),
            Commit::AddProduct { members } => self.add_product(members),
            Commit::RetireProduct { product } => {
                self.retire(product);
                Ok(())
            }
            Commit::AddLoan { office, loan } => self.add_loan(office, Row::new(alloc, loan)),
            Commit::SetStage { loan, stage } => {
                self.set_stage(loan, stage);
                Ok(())
            }
            Commit::AddEntry { loan, account } | Commit::ReverseEntry { loan, account, .. } => {
                self.enter(loan, account);
                Ok(())
            }
        }
    }
}
