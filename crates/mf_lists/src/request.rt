//! What may be asked of the lists, and of a loan before it is submitted.

use mf_base::{Day, Name};
use mf_office::AccountNo;

/// A list of one office. What is told of things by number begins after one, so that a list is read page by page.
#[derive(Drop)]
pub enum ListAsked {
    /// The clients.
    Clients { after: u32 },
    /// The loans of a client.
    LoansOf { client: AccountNo },
    /// What is due by a day and outstanding, loan by loan.
    DueBy { day: Day, after: u32 },
    /// The loans of a status.
    AtStatus { status: u32, after: u32 },
    /// The staff.
    StaffOf,
    /// The clients that have a part in their name, or have it as their number or as that of one of their loans.
    Find { part: Name },
    /// What the journal tells of a loan.
    ChangesOf { loan: AccountNo },
    /// What the journal tells of the office.
    Changes { after: u32 },
    /// What was paid in and paid out on a business day, by member of staff.
    TakingsOn { day: Day },
}

/// What is asked. Each reading is one variant, here or among the lists of an office.
#[derive(Drop)]
pub enum ListRequest {
    /// A list of an office, by a number that may be no office's.
    OfOffice {
        office: u32,
        asked: ListAsked,
    },
    /// What a loan of a product would be, of so many cents over so many periods, paid out on a day.
    Preview {
        product: u32,
        principal: u64,
        periods: u32,
        day: Day,
    },
}
