//! Repayments: a receipt that the office knows is answered, and any other is entered.

ghost use Rattle.std.specs.Prelude.{◌≡◌, ◌≢◌, IfErr};
ghost use Rattle.mf_model.specs.declared.request.LoanRequest.TheVariants.{Repay};
ghost use Rattle.mf_model.specs.Sound.{IsRepayment};
ghost use Rattle.mf_model.specs.Receipts.{repeated_seq};
ghost use Rattle.mf_model.specs.Loans.{repeat_of};
ghost use Rattle.mf_desk.specs.Answers.{Asks, Decides, use_named, loan_outcome, in_ledger};

use crate::decision::Decision;
use crate::entering::enter;
use crate::entries::Asked;
use crate::loans::find_loan;
use mf_account::Receipt;
use mf_base::Fault;
use mf_model::{InstitutionStore, LoanReply, ReceiptUse, Repayment};
use mf_office::{Account, AccountNo, Caller, OfficeNo};
use std::alloc::Global;

/// The entry that carries a receipt of an office, where one is named and known.
fn find_use<S: InstitutionStore>(
    alloc: Global,
    store: &mut S,
    office: OfficeNo,
    receipt: &Option<Receipt>,
) -> Result<Option<ReceiptUse>, Fault>
    ensures asks { Asks S.InstitutionStore (use_named office receipt.now) store.old store.new result }
    ensures refusal { IfErr result (λ f. f ≢ Fault.F19) }
{
    match receipt {
        None => Ok(None),
        Some(receipt) => store.receipt(alloc, office, receipt),
    }
}

/// The number of the entry that carries a receipt, where a repayment of this loan names the same amount and day; else
/// F15.
fn repeated_entry(asked: &Repayment, number: AccountNo, used: ReceiptUse) -> Result<u32, Fault>
    ensures { result ≡ repeated_seq number asked.now.amount asked.now.day used }
{
    if used.loan == number && used.amount == asked.amount && used.day == asked.day {
        Ok(used.seq)
    } else {
        Err(Fault::F15)
    }
}

/// A repayment with a receipt that is known: nothing is entered.
fn repeat<S: InstitutionStore>(
    alloc: Global,
    store: &mut S,
    loan: Account,
    asked: &Repayment,
    used: ReceiptUse,
) -> Result<Decision, Fault>
    ensures decides { Decides S.InstitutionStore (in_ledger loan
        (λ k l. repeat_of (repeated_seq loan.number asked.now.amount asked.now.day used))) store.old store.new result }
    ensures refusal { IfErr result (λ f. f ≢ Fault.F19) }
{
    find_loan(alloc, store, &loan)?;
    let seq = repeated_entry(asked, loan.number, used)?;
    Ok(Decision::tell(loan, LoanReply::Repeated(seq)))
}

/// A repayment of a loan. A receipt that its office knows comes first, whatever the loan's stage.
pub fn repay<S: InstitutionStore>(
    alloc: Global,
    store: &mut S,
    caller: Caller,
    loan: Account,
    asked: Repayment,
) -> Result<Decision, Fault>
    requires in_range { IsRepayment asked }
    ensures decides { Decides S.InstitutionStore (loan_outcome loan (Repay asked) caller) store.old store.new result }
    ensures refusal { IfErr result (λ f. f ≢ Fault.F19) }
{
    let used = find_use(alloc, store, loan.office, &asked.receipt)?;
    match used {
        Some(used) => repeat(alloc, store, loan, &asked, used),
        None => enter(alloc, store, caller, loan, Asked::Repayment(asked)),
    }
}
