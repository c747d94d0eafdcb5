//! What may be asked, by the part of the institution that it looks at.

ghost use Rattle.std.specs.Prelude.{◌≡◌};
ghost use Rattle.mf_model.specs.Desk.{flaw_fault};

use crate::waivable::Waivable;
use mf_account::Receipt;
use mf_base::{Day, Fault};
use mf_catalog::{Calc, ChargeKind, ProductMembers};
use mf_office::{Account, AccountNo, Name, OfficeNo, Role};

/// Why a line reads as no request.
#[derive(Clone, Copy, PartialEq, Eq)]
pub enum Flaw {
    /// The line, its caller, its method, a number in its path, its JSON or a member is not as it should be.
    Malformed,
    /// No route has its path.
    NoRoute,
    /// Its route has no such method.
    NoMethod,
}

impl Flaw {
    /// The refusal of such a line.
    pub fn fault(self) -> Fault
        ensures { result ≡ flaw_fault self }
    {
        match self {
            Flaw::Malformed => Fault::F1,
            Flaw::NoRoute => Fault::F5,
            Flaw::NoMethod => Fault::F6,
        }
    }
}

/// What is asked of the catalogue, which all offices share.
#[derive(Drop)]
pub enum CatalogueRequest {
    /// The business day.
    ShowDay,
    /// A later business day.
    SetDay {
        day: Day,
    },
    /// A new charge. Its value is in cents where it is flat, else in hundredths of a percent.
    AddCharge {
        name: Name,
        kind: ChargeKind,
        calc: Calc,
        value: u64,
    },
    /// A charge.
    ShowCharge {
        charge: u32,
    },
    /// A new product.
    AddProduct {
        members: ProductMembers,
    },
    /// A product.
    ShowProduct {
        product: u32,
    },
    /// A product lends no more.
    RetireProduct {
        product: u32,
    },
}

/// What a client asks to be lent: so many cents of a product, for so many periods.
#[derive(Clone, Copy)]
pub struct Application {
    /// The client's number within its office.
    pub client: AccountNo,
    /// The product's number.
    pub product: u32,
    /// In whole cents.
    pub principal: u64,
    /// How many instalments.
    pub periods: u32,
}

/// What is asked of one office.
#[derive(Drop)]
pub enum OfficeRequest {
    /// A new member of staff.
    AddStaff { name: Name, role: Role },
    /// A new client.
    AddClient { name: Name },
    /// A client's name.
    ShowClient { client: AccountNo },
    /// A new loan of a client.
    SubmitLoan(Application),
    /// The first 100 loans whose number is above one.
    ListLoans { after: u32 },
}

/// A step of a loan to another stage that needs nothing beside its name.
#[derive(Clone, Copy, PartialEq, Eq)]
pub enum PlainStep {
    /// A submitted loan is approved.
    Approve,
    /// A submitted loan is rejected.
    Reject,
    /// A submitted loan is withdrawn by its client.
    Withdraw,
    /// An approved loan is pending again.
    UndoApproval,
}

/// A step of a loan to another stage.
#[derive(Clone, Copy)]
pub enum LoanStep {
    /// A step that names no day.
    Plain(PlainStep),
    /// An approved loan is paid out, on a day.
    Disburse(Day),
}

/// What is paid back, in cents, on a day, with a receipt where there is one.
#[derive(Drop)]
pub struct Repayment {
    pub amount: u64,
    pub day: Day,
    pub receipt: Option<Receipt>,
}

/// What staff enter of a loan beside repayments and fees; it counts from the business day.
#[derive(Clone, Copy)]
pub enum Posting {
    /// The product's overdue charge on an instalment.
    Penalty { instalment: u32 },
    /// What is outstanding in one portion of an instalment is waived.
    Waiver { instalment: u32, portion: Waivable },
    /// All that is outstanding is written off.
    WriteOff,
    /// What is overpaid is given back.
    Refund,
}

/// What is asked of one loan.
#[derive(Drop)]
pub enum LoanRequest {
    /// The loan as it stands.
    Show,
    /// Its instalments.
    ShowInstalments,
    /// Its entries.
    ShowEntries,
    /// A step to another stage.
    Take(LoanStep),
    /// A repayment.
    Repay(Repayment),
    /// A fee by a charge of the catalogue, on the first instalment that is due on a day or after it, else on the last.
    ChargeFee { charge: u32, due: Day },
    /// An entry that counts from the business day.
    Post(Posting),
    /// An entry, by its number, counts no more.
    Reverse { entry: u32 },
}

/// What is asked. Each route is one variant, here or within the part that it looks at.
#[derive(Drop)]
pub enum Request {
    /// A line that reads as no request.
    Unreadable(Flaw),
    /// The catalogue alone.
    Catalogue(CatalogueRequest),
    /// One office, by a number that may be no office's.
    Office {
        office: u32,
        asked: OfficeRequest,
    },
    /// One loan.
    Loan {
        loan: Account,
        asked: LoanRequest,
    },
    /// The caller's office and those below it.
    SeenOffices,
    /// The active loans of the caller's office and of those below it, by days overdue.
    SeenArrears,
    /// A new office under a parent.
    NewOffice {
        number: OfficeNo,
        parent: OfficeNo,
        name: Name,
    },
}
