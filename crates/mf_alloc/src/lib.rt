//! Paying into instalments, by any lawful strategy.
#![tactic(auto)]

pub mod laws;
mod named;
mod payment;
mod portions;
mod row;
mod strategy;

pub use named::{DueFirst, InterestFirst, MifosStandard, Named, PrincipalFirst};
pub use payment::{due_by, outstanding, pay, undo};
pub use row::{Cell, Instalment, Portion, Share};
pub use strategy::Strategy;
