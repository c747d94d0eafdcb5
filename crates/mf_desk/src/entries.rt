//! Entries as they are asked for, each made as the next of its account.

ghost use Rattle.std.specs.Prelude.{◌≡◌, ◌≢◌, ◌⊎◌, IfOk, IfErr, IfSome, None, Some};
ghost use Rattle.mf_base.specs.declared.fault.Fault.TheVariants.{F20};
ghost use Rattle.mf_alloc.specs.declared.row.Portion.TheVariants.{Principal};
ghost use Rattle.mf_account.specs.Change.{IsReplayed};
ghost use Rattle.mf_model.specs.Sound.{IsPostingInRange};
ghost use Rattle.mf_model.specs.Postings.{entry_of_today, fee, posting, repayment};
ghost use Rattle.mf_desk.specs.Entries.{IsAskedInRange, first_of, entry_of};

use mf_account::{Entry, Kind, LoanAccount};
use mf_alloc::Portion;
use mf_base::{Day, Fault};
use mf_catalog::ChargeDef;
use mf_model::{Posting, Repayment};
use mf_office::Caller;

/// What is asked to be entered of a loan.
#[derive(Drop)]
pub enum Asked {
    Repayment(Repayment),
    Posting(Posting),
    /// A fee by a charge of the catalogue that falls due on a day.
    Fee { charge: ChargeDef, due: Day },
}

/// A repayment, as the next entry of an account.
fn repayment(asked: Repayment, staff: Caller, account: &LoanAccount) -> Entry
    ensures { result ≡ repayment asked staff account.now.loan }
{
    Entry {
        seq: account.next_entry(),
        kind: Kind::Repay,
        day: asked.day,
        amount: asked.amount,
        instalment: 0,
        portion: Portion::Principal,
        receipt: asked.receipt,
        staff,
        reversed: false,
    }
}

/// An entry that counts from the business day, as the next of an account: one of no amount, on no instalment.
fn plain_entry(kind: Kind, staff: Caller, today: Day, account: &LoanAccount) -> Entry
    ensures { result ≡ entry_of_today kind 0 0 Principal staff today account.now.loan }
{
    Entry {
        seq: account.next_entry(),
        kind,
        day: today,
        amount: 0,
        instalment: 0,
        portion: Portion::Principal,
        receipt: None,
        staff,
        reversed: false,
    }
}

/// The entry that a posting makes.
fn posting(asked: Posting, staff: Caller, today: Day, account: &LoanAccount) -> Entry
    requires { IsPostingInRange asked }
    ensures { result ≡ posting asked staff today account.now.loan }
{
    match asked {
        Posting::Penalty { instalment } => Entry {
            amount: account.penalty_amount(instalment),
            instalment,
            portion: Portion::Penalty,
            ..plain_entry(Kind::Penalty, staff, today, account)
        },
        Posting::Waiver {
            instalment,
            portion,
        } => Entry {
            instalment,
            portion: portion.portion(),
            ..plain_entry(Kind::Waive, staff, today, account)
        },
        Posting::WriteOff => plain_entry(Kind::WriteOff, staff, today, account),
        Posting::Refund => plain_entry(Kind::Refund, staff, today, account),
    }
}

/// A fee by a charge that falls due on a day. None where the charge's value is outside the limits; no correct store
/// returns such a charge.
fn fee(
    charge: &ChargeDef,
    due: Day,
    staff: Caller,
    today: Day,
    account: &LoanAccount,
) -> Option<Entry>
    ensures { IfSome result (λ entry. entry ≡ fee charge.now due staff today account.now.loan) }
{
    let amount = account.fee_amount(charge)?;
    Some(Entry {
        amount,
        instalment: account.fee_instalment(due),
        portion: Portion::Fee,
        ..plain_entry(Kind::Fee, staff, today, account)
    })
}

/// The next entry of an account, as it is asked for. Only a fee is refused here: where its due day or the account's
/// status forbids it, and with F20 where its charge's value is outside the limits.
pub fn make_entry(
    asked: Asked,
    staff: Caller,
    today: Day,
    account: &LoanAccount,
) -> Result<Entry, Fault>
    requires in_range { IsAskedInRange asked }
    ensures made { IfOk result (λ entry. entry ≡ entry_of asked staff today account.now.loan) }
    ensures first { IsReplayed account.now → IfOk result (λ entry. first_of asked account.now.loan ≡ None) }
    ensures refused { IsReplayed account.now → IfErr result (λ f. (f ≡ F20)
        ⊎ (first_of asked account.now.loan ≡ Some f)) }
    ensures refusal { IfErr result (λ f. f ≢ Fault.F19) }
{
    match asked {
        Asked::Repayment(asked) => Ok(repayment(asked, staff, account)),
        Asked::Posting(asked) => Ok(posting(asked, staff, today, account)),
        Asked::Fee { charge, due } => {
            if let Some(fault) = account.fee_refusal(due) {
                return Err(fault);
            }
            fee(&charge, due, staff, today, account).ok_or(Fault::F20)
        }
    }
}
