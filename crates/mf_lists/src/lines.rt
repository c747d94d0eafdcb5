//! The lines of the lists. Amounts are whole cents.

use mf_base::{Day, Name};
use mf_office::{AccountNo, Caller, Role, StaffNo};
use mf_statement::Listing;

/// A client of an office, with how many of their loans wait, are active, and are overdue.
#[derive(Drop)]
pub struct ClientLine {
    /// Its number within the office.
    pub number: AccountNo,
    pub name: Name,
    /// Loans that are submitted or approved and not yet paid out.
    pub waiting: u32,
    /// Loans that are paid out, of which something is outstanding.
    pub active: u32,
    /// Active loans of which something fell due before the business day and is outstanding.
    pub overdue: u32,
}

/// A loan of a client.
#[derive(Clone, Copy)]
pub struct ClientLoan {
    /// Its number within the office.
    pub loan: AccountNo,
    pub product: u32,
    pub principal: u64,
    pub status: u16,
    /// The day of its approval, where it has one.
    pub approved: Option<Day>,
    /// The day of its disbursement, where it has one.
    pub disbursed: Option<Day>,
    /// What is outstanding of all portions.
    pub left: u64,
    /// Days since the oldest instalment fell due of which something is outstanding.
    pub overdue: u32,
}

/// The last entry of a loan that counts.
#[derive(Clone, Copy)]
pub struct LastEntry {
    /// Its number within the loan, from 1.
    pub seq: u32,
    /// The day that it counts from.
    pub day: Day,
}

/// An active loan of which something is due by a day and outstanding.
#[derive(Drop)]
pub struct DueLine {
    /// Its number within the office.
    pub loan: AccountNo,
    /// The number of its client, and their name.
    pub client: AccountNo,
    pub name: Name,
    /// When the oldest instalment fell due of which something is outstanding.
    pub oldest: Day,
    /// What is due by the day and outstanding: penalties, fees, interest and principal.
    pub due: [u64; 4],
    /// What is outstanding in all, due or not.
    pub left: u64,
    /// The last entry that counts, where there is one.
    pub last: Option<LastEntry>,
}

/// A loan of a status.
#[derive(Drop)]
pub struct StageLine {
    /// Its number within the office.
    pub loan: AccountNo,
    /// The number of its client, and their name.
    pub client: AccountNo,
    pub name: Name,
    pub product: u32,
    pub principal: u64,
    /// The day on which it came to its stage: of its approval, or of its disbursement; None where no day is kept.
    pub day: Option<Day>,
}

/// A member of staff of an office.
#[derive(Drop)]
pub struct StaffLine {
    /// Its number within the office.
    pub number: StaffNo,
    pub name: Name,
    pub role: Role,
}

/// A change that the journal tells of an office or of a loan: an accepted request, as it was received.
#[derive(Drop)]
pub struct ChangeLine {
    /// Its place among the changes that are told, from 1.
    pub number: u32,
    /// The business day on which it was accepted.
    pub day: Day,
    /// Who sent it.
    pub caller: Caller,
    /// The number of the loan that it names within the office, where it names one.
    pub loan: Option<AccountNo>,
    /// What was told of it beside its text.
    pub told: Listing<u8>,
    pub method: Listing<u8>,
    pub path: Listing<u8>,
    pub body: Listing<u8>,
}
