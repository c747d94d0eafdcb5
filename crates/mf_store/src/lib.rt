//! The institution in tables, over any store that `sqlite` can change.
//!
//! Contracts speak of an institution: which one a store stands for, what a call answers of it, and what a commit or a
//! stop leaves. Out of memory and every fault of the store are F20.
#![tactic(auto)]

mod accounts;
mod arrears;
mod catalogue;
mod commits;
mod counts;
mod day;
mod institution;
mod journal;
mod kept;
mod known;
pub mod laws;
mod loans;
mod office_rows;
mod parts;
mod reads;
mod receipts;
mod shown;
mod sought;
mod store;
mod visible;

pub use day::day_of_number;
pub use known::Known;
pub use mf_store_values::{Ledger, OfficeRows, StaffMember};
pub use sought::NextRows;
pub use store::Store;
