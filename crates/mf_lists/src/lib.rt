//! What lists tell of an institution, and what a loan would cost before anybody agrees to it.
#![tactic(auto)]

mod answer;
pub mod laws;
mod lines;
mod preview;
mod rate;
mod request;
mod takings;

pub use answer::{ListAnswer, ListTold};
pub use lines::{ChangeLine, ClientLine, ClientLoan, DueLine, LastEntry, StaffLine, StageLine};
pub use preview::{LoanPreview, is_loan_within_limits, preview_loan, preview_on_terms};
pub use rate::yearly_rate;
pub use request::{ListAsked, ListRequest};
pub use takings::{Counted, Movement, Taking, Way, with_movement};
