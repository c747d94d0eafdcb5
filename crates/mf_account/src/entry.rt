//! The entries of a loan, by kind.

ghost use Rattle.std.specs.Prelude.{◌≡◌};

use crate::receipt::Receipt;
use mf_alloc::Portion;
use mf_base::Day;
use mf_office::Caller;

/// What an entry does.
#[derive(Clone, Copy, PartialEq, Eq)]
pub enum Kind {
    /// Pays the outstanding cells; the rest is overpaid.
    Repay,
    /// Adds a fee to an instalment.
    Fee,
    /// Adds a penalty to an instalment.
    Penalty,
    /// Waives what is outstanding in one cell.
    Waive,
    /// Writes off all that is outstanding.
    WriteOff,
    /// Gives back what is overpaid.
    Refund,
}

impl Kind {
    ghost use Rattle.mf_account.specs.Kinds.{is_seal};

    /// Whether an entry of this kind seals the loan while it stands: a write-off or a refund.
    pub fn is_seal(self) -> bool
        ensures { result ≡ is_seal self }
    {
        matches!(self, Kind::WriteOff | Kind::Refund)
    }
}

/// An entry of a loan.
#[derive(Drop)]
pub struct Entry {
    /// Its number within the loan, from 1.
    pub seq: u32,
    pub kind: Kind,
    /// The day that it counts from; entries of one day count in the order of their numbers.
    pub day: Day,
    /// Whole cents: what is repaid, or the computed charge of a fee or penalty; 0 for the other kinds.
    pub amount: u64,
    /// The instalment that a fee, a penalty or a waiver is for; 0 for the other kinds.
    pub instalment: u32,
    /// A waiver's portion; that of the charge for a fee or penalty; `Principal` for the other kinds.
    pub portion: Portion,
    /// A repayment's receipt, where it has one.
    pub receipt: Option<Receipt>,
    /// Who entered it.
    pub staff: Caller,
    /// A reversed entry counts no more.
    pub reversed: bool,
}
