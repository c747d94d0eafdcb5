//! Offices and who works there: numbers, callers, accounts, the tree of offices, and the keys by which an office's
//! part of the tree is selected.
#![tactic(auto)]

mod account;
mod caller;
mod digits;
mod key;
pub mod laws;
mod number;
mod office;
mod roles;
mod staff;

pub use account::{Account, AccountNo};
pub use caller::Caller;
pub use key::{Key, child_text, count_dots, in_range};
pub use mf_base::Name;
pub use number::next_number;
pub use office::{Office, OfficeNo};
pub use staff::{Role, Staff, StaffNo};
