//! The changes of an institution, each made whole or not at all.

use crate::loan::{Loan, Stage};
use mf_account::LoanAccount;
use mf_base::Day;
use mf_catalog::{Calc, ChargeKind, ProductMembers};
use mf_office::{Account, Name, OfficeNo, Role};

/// A change that the store makes whole or not at all.
#[derive(Drop)]
pub enum Commit {
    /// One more office, under a parent.
    AddOffice {
        number: OfficeNo,
        parent: OfficeNo,
        name: Name,
    },
    /// One more member of staff of an office, with the next number.
    AddStaff {
        office: OfficeNo,
        name: Name,
        role: Role,
    },
    /// One more client of an office, with the next number.
    AddClient {
        office: OfficeNo,
        name: Name,
    },
    /// The business day becomes this one.
    SetDay {
        day: Day,
    },
    /// One more charge, with the next number. Its value is in cents where it is flat, else in hundredths of a percent.
    AddCharge {
        name: Name,
        kind: ChargeKind,
        calc: Calc,
        value: u64,
    },
    /// One more product, with the next number.
    AddProduct {
        members: ProductMembers,
    },
    /// A product that is there lends no more.
    RetireProduct {
        product: u32,
    },
    /// One more loan of an office, with the next number.
    AddLoan {
        office: OfficeNo,
        loan: Loan,
    },
    /// A loan that is there comes to this stage.
    SetStage {
        loan: Account,
        stage: Stage,
    },
    /// A loan that is disbursed has one entry more; this is its account then.
    AddEntry {
        loan: Account,
        account: LoanAccount,
    },
    /// An entry of a loan that is disbursed is reversed; this is its account then.
    ReverseEntry {
        loan: Account,
        seq: u32,
        account: LoanAccount,
    },
}
