//! Charges: what they are for, and how they are reckoned.

use mf_base::Name;
use std::alloc::AllocError;

/// When a charge is taken. An overdue charge is a penalty, every other one a fee.
#[derive(Clone, Copy, PartialEq, Eq)]
pub enum ChargeKind {
    /// At disbursement, beside the schedule.
    Disbursement = 1,
    /// With each instalment.
    Instalment = 2,
    /// For an instalment that is overdue.
    Overdue = 3,
    /// On a due day that is named when it is entered.
    DueDate = 4,
}

/// How a charge is computed.
#[derive(Clone, Copy, PartialEq, Eq)]
pub enum Calc {
    /// Its value itself, in cents.
    Flat = 1,
    /// A percentage of an amount.
    OfAmount = 2,
    /// A percentage of an interest.
    OfInterest = 3,
    /// A percentage of an amount and an interest together.
    OfBoth = 4,
}

/// A charge of the catalogue.
pub struct ChargeDef {
    /// Its number in the catalogue, from 1.
    pub number: u32,
    /// Its name.
    pub name: Name,
    /// When it is taken.
    pub kind: ChargeKind,
    /// How it is computed.
    pub calc: Calc,
    /// Whole cents where it is flat, else hundredths of a percent.
    pub value: u64,
}

// By hand, since a derived drop is proved again in each function that may drop one.
impl Drop for ChargeDef {
    fn drop(self) {
        let ChargeDef {
            number: _,
            name: _,
            kind: _,
            calc: _,
            value: _,
        } = self;
    }
}

// By hand, since a derived one asks of each member whether there was memory for it, and is proved for each way out.
impl Clone for ChargeDef {
    ghost use Rattle.std.specs.Prelude.{◌≡◌};

    ghost is_clone = { λ charge copy. copy ≡ charge };

    fn clone(&self) -> Result<ChargeDef, AllocError> {
        Ok(ChargeDef {
            number: self.number,
            name: self.name.clone()?,
            kind: self.kind,
            calc: self.calc,
            value: self.value,
        })
    }
}
