//! Laws of the definitions. Each function does nothing: its contract is the law.

ghost use Rattle.mf_alloc.specs.DueFirstLaw.{DueComesFirst};
ghost use Rattle.mf_alloc.specs.PaymentLaw.{PaidByCells};

/// An amount that is paid by a lawful order raises what is paid in each cell by the part of the amount that falls on
/// its stretch of the line, and changes nothing else.
pub fn payments_go_by_cells()
    ensures { PaidByCells }
{}

/// What is due first, in words: a cell that is due comes before one that isn't. Of two that are due, the one whose
/// portion comes first (penalty, fee, interest, principal) comes first, and of equal portions the lower instalment; of
/// two that are not due, the lower instalment, and within one the portion that comes first.
pub fn what_is_due_comes_first()
    ensures { DueComesFirst }
{}
