//! Books of double entry: what stands on each account, the postings of each change, and their text as a journal of
//! hledger. All is read off the accounts of loans; nothing is kept for the books alone.
#![tactic(auto)]

mod accrual;
mod adjusting;
mod basis;
mod books;
pub mod laws;
mod names;
mod occasion;
mod opening;
mod sheet;
mod text;

pub use accrual::{AccruedSums, adjusting_postings};
pub use adjusting::opening_adjustments;
pub use basis::Basis;
pub use books::{BookAccount, LoanSums, Posting, Title, Transaction, postings};
pub use names::{GivenName, Names, Program};
pub use occasion::Occasion;
pub use opening::opening_postings;
pub use sheet::{booked_sheet, opening_sheet, sheet_columns, transaction_sheet};
pub use text::{booked_text, opening_text, preamble, transaction_text};
