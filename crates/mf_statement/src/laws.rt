//! Laws of the definitions. Each function does nothing: its contract is the law.

ghost use Rattle.mf_statement.specs.WorkedRows.{AreDays, AreRepaymentsTold, AreInstalmentsTold, IsPrincipalFirstTold};
ghost use Rattle.mf_statement.specs.WorkedRows.{IsInterestFirstTold, AreDueFirstTold, IsDueFirstTold, IsReversalTold};
ghost use Rattle.mf_statement.specs.WorkedRows.{IsFeeTold, IsPenaltyTold, IsWaiverTold, IsWriteOffTold, IsRefundTold};

/// Worked rows of one loan, which compute: 100000 cents at 12 percent for 3 months of equal principal, disbursed on
/// 2024-01-31. What is told of its instalments, and of entries of each kind, by each of the four strategies.
pub fn worked_rows()
    ensures days { AreDays }
    ensures repayments { AreRepaymentsTold }
    ensures instalments { AreInstalmentsTold }
    ensures principal_first { IsPrincipalFirstTold }
    ensures interest_first { IsInterestFirstTold }
    ensures due_first { AreDueFirstTold }
    ensures due_first_with_charges { IsDueFirstTold }
    ensures reversal { IsReversalTold }
    ensures fee { IsFeeTold }
    ensures penalty { IsPenaltyTold }
    ensures waiver { IsWaiverTold }
    ensures write_off { IsWriteOffTold }
    ensures refund { IsRefundTold }
{}
