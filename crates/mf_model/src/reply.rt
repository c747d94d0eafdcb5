//! The replies to requests that are accepted.

ghost use Rattle.std.specs.Prelude.{◌≡◌};
ghost use Rattle.mf_model.specs.Names.{names_in, names_of_loan};

use crate::listing::{ArrearsList, LoanList, OfficeList};
use crate::loan::Statement;
use mf_base::Day;
use mf_catalog::{ChargeDef, Product};
use mf_office::{Account, Caller, Name, OfficeNo};
use mf_statement::{EntryList, InstalmentList};

/// The office and the loan that a reply names; 0 where it names none.
#[derive(Clone, Copy)]
pub struct Names {
    pub office: u32,
    pub loan: u32,
}

/// What is told of one loan.
#[derive(Drop)]
pub enum LoanReply {
    /// The loan as it stands.
    Shown(Statement),
    /// Its instalments, by number.
    Instalments(InstalmentList),
    /// Its entries, by number.
    Entries(EntryList),
    /// The status number that it has come to.
    Status(u16),
    /// A new entry of it, by its number.
    Entered(u32),
    /// An entry that was there, by its number: its receipt was sent again.
    Repeated(u32),
    /// An entry that counts no more, by its number.
    Reversed(u32),
}

/// What a request is told where it succeeds.
#[derive(Drop)]
pub enum Reply {
    /// A new office, by its number.
    OfficeMade(OfficeNo),
    /// Offices by number.
    Offices(OfficeList),
    /// A new member of staff.
    StaffMade(Caller),
    /// A new client.
    ClientMade(Account),
    /// A client and its name.
    ClientShown { client: Account, name: Name },
    /// The business day.
    DayShown(Day),
    /// The new business day.
    DaySet(Day),
    /// A new charge, by its number.
    ChargeMade(u32),
    /// A charge.
    ChargeShown(ChargeDef),
    /// A new product, by its number.
    ProductMade(u32),
    /// A product.
    ProductShown(Product),
    /// A product that lends no more, by its number.
    ProductRetired(u32),
    /// A new loan.
    LoanMade(Account),
    /// A loan, and what is told of it.
    Loan { loan: Account, told: LoanReply },
    /// Loans of an office, by number.
    LoansShown(LoanList),
    /// A line of active loans for each office, by number.
    ArrearsShown(ArrearsList),
}

impl Names {
    fn of_office(office: u32) -> Names
        ensures { result ≡ record { office = office; loan = 0 } }
    {
        Names { office, loan: 0 }
    }

    fn of_loan(loan: &Account) -> Names
        ensures { result ≡ names_of_loan loan.now }
    {
        Names {
            office: loan.office.get(),
            loan: loan.number.get(),
        }
    }
}

impl Reply {
    /// What the reply to an accepted change names: the office that has what is new or changed, and the loan.
    pub fn names(&self) -> Names
        ensures { result ≡ names_in self.now }
    {
        match self {
            Reply::OfficeMade(number) => Names::of_office(number.get()),
            Reply::StaffMade(staff) => Names::of_office(staff.office.get()),
            Reply::ClientMade(client) => Names::of_office(client.office.get()),
            Reply::LoanMade(loan) | Reply::Loan { loan, .. } => Names::of_loan(loan),
            _ => Names::of_office(0),
        }
    }
}
