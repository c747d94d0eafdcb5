//! What a request for a list is told where it succeeds.

use crate::lines::{ChangeLine, ClientLine, ClientLoan, DueLine, StaffLine, StageLine};
use crate::preview::LoanPreview;
use crate::takings::Taking;
use mf_office::OfficeNo;
use mf_statement::Listing;

/// The lines of a list of one office, by number.
#[derive(Drop)]
pub enum ListTold {
    /// Clients.
    ClientLines(Listing<ClientLine>),
    /// Loans of one client.
    ClientLoans(Listing<ClientLoan>),
    /// Loans of which something is due.
    DueLines(Listing<DueLine>),
    /// Loans of one status.
    StageLines(Listing<StageLine>),
    /// Staff.
    StaffLines(Listing<StaffLine>),
    /// Changes.
    ChangeLines(Listing<ChangeLine>),
    /// Takings.
    TakingLines(Listing<Taking>),
}

/// What is told.
#[derive(Drop)]
pub enum ListAnswer {
    /// A list of an office, with the office's number.
    Listed { office: OfficeNo, told: ListTold },
    /// What a loan would be.
    Previewed(LoanPreview),
}
