//! What a transaction of the books is of.

ghost use Rattle.std.specs.Prelude.{◌≡◌};
ghost use Rattle.mf_ledger.specs.Text.{occasion_of, opening_of};

use crate::books::Transaction;
use mf_base::Day;
use mf_office::Account;

/// What a transaction is of: its day, the number of its line of the journal, and its loan. An opening stands before
/// the first line and is of no loan.
#[derive(Clone, Copy)]
pub struct Occasion {
    pub day: Day,
    /// From 1; 0 for an opening.
    pub number: u64,
    pub loan: Option<Account>,
}

impl Transaction {
    /// What it is of.
    pub fn occasion(&self) -> Occasion
        ensures { result ≡ occasion_of self.now }
    {
        Occasion {
            day: self.day,
            number: self.number,
            loan: Some(self.loan),
        }
    }
}

impl Occasion {
    /// The opening of books on a day.
    pub fn opening(day: Day) -> Occasion
        ensures { result ≡ opening_of day }
    {
        Occasion {
            day,
            number: 0,
            loan: None,
        }
    }
}
