//! Entries and accounts.
#![tactic(auto)]

mod account;
mod apply;
mod balances;
mod change;
mod charges;
mod effect;
mod entry;
mod lawful;
pub mod laws;
mod loan;
mod names;
mod open;
mod receipt;
mod refusal;
mod replay;
mod resume;
mod rewind;
mod safe;
mod settled;
pub mod status;
mod statuses;

pub use account::LoanAccount;
pub use balances::Balances;
pub use change::Change;
pub use entry::{Entry, Kind};
pub use lawful::MOST_ENTRIES;
pub use loan::DisbursedLoan;
pub use open::open_balances;
pub use receipt::{Receipt, is_receipt};
pub use settled::{Book, How, SettledPart};
pub use statuses::settled_status;
