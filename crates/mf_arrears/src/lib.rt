//! Days overdue, an office's line of its active loans, and the report over offices.
#![tactic(auto)]

mod ageing;
mod fold;
mod line;
mod report;

pub use ageing::{arrears, class, days_past, earlier};
pub use fold::{LoanSoFar, TooMuch};
pub use line::{Class, OfficeLine};
pub use report::{MOST_LOANS, Totals, report_text};
