//! An instalment as it is scheduled.

use mf_base::Day;

/// One row of a fresh schedule. All amounts are whole cents.
#[derive(Clone, Copy, PartialEq, Eq)]
pub struct FreshInstalment {
    /// The day on which it falls due.
    pub due: Day,
    /// Its part of the principal.
    pub principal: u64,
    /// Its interest, after grace.
    pub interest: u64,
    /// The charge that is taken with it.
    pub fees: u64,
}
