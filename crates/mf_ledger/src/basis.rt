//! The basis on which books are kept.

/// When interest, fees and penalties are income.
#[derive(Clone, Copy, PartialEq, Eq)]
pub enum Basis {
    /// Once they are paid.
    Cash,
    /// Once they fall due.
    Accrual,
}
