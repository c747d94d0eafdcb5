//! Charges and products, and the terms of a loan.
#![tactic(auto)]

mod amount;
mod charge;
pub mod laws;
mod lending;
mod limits;
mod names;
mod product;
mod terms;

pub use amount::charge_amount;
pub use charge::{Calc, ChargeDef, ChargeKind};
pub use lending::{check_loan, check_product, terms_for, terms_of};
pub use limits::{
    GREATEST_AMOUNT, GREATEST_PERCENTAGE, GREATEST_RATE, MOST_DAYS, MOST_GRACE, MOST_MONTHS,
    MOST_PERIODS, MOST_WEEKS, greatest_value, longest_step,
};
pub use mf_base::Name;
pub use product::{Product, ProductMembers};
pub use terms::{Method, StrategyName, Terms};
