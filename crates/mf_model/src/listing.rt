//! The lists of items that statements and replies carry.

use crate::loan::LoanLine;
use mf_arrears::OfficeLine;
use mf_office::Office;
use mf_statement::Listing;

/// Offices by number.
pub type OfficeList = Listing<Office>;

/// Loans by number.
pub type LoanList = Listing<LoanLine>;

/// A line of active loans for each office, by number.
pub type ArrearsList = Listing<OfficeLine>;
