//! Audits of tables that were found: what a sound institution's rows come to, office by office and in all, or which row
//! breaks which condition.
#![tactic(auto)]

mod accounts;
mod audits;
mod charges;
mod clients;
mod entries;
mod find;
mod finding;
mod journal;
mod keys;
mod loans;
mod meta;
mod named;
mod offices;
mod places;
mod products;
mod receipts;
mod rows;
mod seals;
mod searched;
mod staff;
mod sums_by_loan;
mod sums_by_office;
mod suspects;
mod totals;
mod unread;

pub use audits::{Audit, audit_tables};
pub use find::findings;
pub use finding::{
    ChargeFlaw, ClientFlaw, Doubt, EntryFlaw, Finding, LoanFlaw, MetaFlaw, OfficeFlaw, ProductFlaw,
    ReceiptFlaw, RowKey, StaffFlaw,
};
pub use journal::BrokenJournal;
pub use sums_by_office::office_sums;
pub use totals::{EntryCounts, LoanCounts, MoneySums, OfficeSums, PrincipalSums, Sums, total};
pub use unread::{TableName, Unread, UnreadValue};
