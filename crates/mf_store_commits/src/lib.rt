//! The writes of commits over tables that hold an institution: the rows by which the tables keep what a change brings.
//! `mf_store_noted` makes them.
#![tactic(auto)]

mod catalogue;
mod changes;
mod entering;
mod entries;
mod first;
mod loans;
mod receipts;

pub use catalogue::{charge_row, product_row, retire};
pub use changes::{put_change, put_schedule};
pub use entering::{entry_writes, reversal_writes};
pub use entries::row_of_entry;
pub use first::first_writes;
pub use loans::{loan_row, with_stage};
pub use receipts::{same_text, writes_of};
