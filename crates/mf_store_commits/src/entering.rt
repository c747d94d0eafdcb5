//! The writes of an entry of a loan, and of the reversal of one, with what either changes of the loan's instalments and
//! shares.

ghost use Rattle.std.specs.Prelude.{◌≡◌, ◌<◌, length, IfOk, IfErr};
ghost use Rattle.mf_base.specs.declared.fault.Fault.TheVariants.{F20};
ghost use Rattle.mf_model.specs.Institution.{Institution};
ghost use Rattle.mf_model.specs.Sound.{IsSound};
ghost use Rattle.mf_model.specs.Store.{IsAdmitted};
ghost use Rattle.mf_model.specs.declared.commit.Commit.TheVariants.{AddEntry, ReverseEntry};
ghost use Rattle.mf_store_commits.specs.Suiting.{Carries};

use crate::changes::put_change;
use crate::entries::row_of_entry;
use crate::receipts::writes_of;
use mf_account::LoanAccount;
use mf_base::Fault;
use mf_office::Account;
use mf_store_schema::StoreWrite;
use std::alloc::Global;

/// The writes that add the last entry of a loan's account to the loan, which has all the others and no more, with what
/// that changed of the loan's instalments and shares. Where the entry carries a receipt, its row is added too. The
/// error is F20.
pub fn entry_writes(
    alloc: Global,
    loan: Account,
    account: &LoanAccount,
) -> Result<Vec<StoreWrite>, Fault>
    ensures carries { IfOk result (λ writes. (i : Institution) → IsSound i → IsAdmitted (AddEntry loan account.now) i
        → Carries (AddEntry loan account.now) writes.items i) }
    ensures some { IfOk result (λ writes. 0 < length writes.items) }
    ensures gives_up { IfErr result (λ fault. fault ≡ F20) }
{
    let office = loan.office.get();
    let loan = loan.number.get();
    let row = row_of_entry(alloc, office, loan, account.entry_count(), account)?;
    let mut writes = writes_of(alloc, row)?;
    put_change(alloc, office, loan, account, &mut writes)?;
    Ok(writes)
}

/// The writes that reverse an entry which is reversed in a loan's account, with what that changed of the loan's
/// instalments and shares. All other entries are the same in both, and the row of the entry's receipt stays as it is.
/// The error is F20.
pub fn reversal_writes(
    alloc: Global,
    loan: Account,
    seq: u32,
    account: &LoanAccount,
) -> Result<Vec<StoreWrite>, Fault>
    ensures carries { IfOk result (λ writes. (i : Institution) → IsSound i
        → IsAdmitted (ReverseEntry loan seq account.now) i
        → Carries (ReverseEntry loan seq account.now) writes.items i) }
    ensures some { IfOk result (λ writes. 0 < length writes.items) }
    ensures gives_up { IfErr result (λ fault. fault ≡ F20) }
{
    let office = loan.office.get();
    let loan = loan.number.get();
    let row = row_of_entry(alloc, office, loan, seq, account)?;
    let mut writes = Vec::new(alloc);
    writes.push(StoreWrite::ChangeEntry(row))?;
    put_change(alloc, office, loan, account, &mut writes)?;
    Ok(writes)
}
