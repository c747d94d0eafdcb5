//! What an institution is, what a request is answered and what it changes, and the laws of whole runs: definitions,
//! and the theorems that the desk and the store stand on.
#![tactic(auto)]

mod commit;
pub mod laws;
mod listing;
mod loan;
mod names;
mod note;
mod reply;
mod request;
mod store;
mod waivable;

pub use commit::Commit;
pub use listing::{ArrearsList, LoanList, OfficeList};
pub use loan::{Loan, LoanLine, ReceiptUse, Stage, Statement};
pub use names::is_name;
pub use note::{Note, ReceivedText, RepaymentText, RequestText};
pub use reply::{LoanReply, Names, Reply};
pub use request::{
    Application, CatalogueRequest, Flaw, LoanRequest, LoanStep, OfficeRequest, PlainStep, Posting,
    Repayment, Request,
};
pub use store::{CatalogueCounts, Counts, InstitutionStore, MOST_IN_CATALOGUE};
pub use waivable::Waivable;
