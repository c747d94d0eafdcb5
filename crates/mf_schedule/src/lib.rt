//! Fresh schedules: what falls due on which day, before anything is paid.
#![tactic(auto)]

mod fixed;
mod instalment;
mod plan;
mod schedule;
mod text;

pub use fixed::fixed_amount;
pub use instalment::FreshInstalment;
pub use schedule::{disbursement_fee, fresh};
pub use text::schedule_text;
