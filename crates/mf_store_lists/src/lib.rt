//! The lists of an office, read from the tables of the program's store.
#![tactic(auto)]

mod changes;
mod client_loans;
mod clients;
mod due;
mod finding;
mod loans;
mod parts;
mod staff;
mod stages;
mod store_lists;
mod takings;

pub use store_lists::StoreLists;
