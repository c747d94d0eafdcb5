//! What the rows of a receipt and of the entry that carries it stand for.

ghost use Rattle.std.specs.Prelude.{◌≡◌, ℕ, IfOk, IfErr};
ghost use Rattle.mf_account.specs.declared.entry.Entry.{Entry};
ghost use Rattle.mf_base.specs.declared.fault.Fault.TheVariants.{F20};
ghost use Rattle.mf_model.specs.Receipts.{Use, use_by};
ghost use Rattle.mf_store_values.specs.Decoded.{AreOfNoUse};
ghost use Rattle.mf_store_values.specs.Flat.{entry_in};
ghost use Rattle.mf_store_values.specs.ReceiptRows.{receipt_in};

use crate::loans::{account_number, day_from};
use crate::values::to_unsigned;
use mf_base::Fault;
use mf_model::ReceiptUse;
use mf_store_schema::{EntryRow, ReceiptRow};

/// What the rows of a receipt and of the entry that carries it stand for; F20 where they stand for nothing.
pub fn use_from(receipt: ReceiptRow, entry: EntryRow) -> Result<ReceiptUse, Fault>
    ensures found { IfOk result (λ found. (office : ℕ) (u : Use) (e : Entry) → receipt ≡ receipt_in office u
        → entry ≡ entry_in office u.by.loan e → u.by ≡ use_by u.by.loan e → found ≡ u.by) }
    ensures none { IfErr result (λ _. AreOfNoUse receipt entry) }
    ensures gives_up { IfErr result (λ fault. fault ≡ F20) }
{
    let loan = account_number(receipt.loan)?;
    let day = day_from(&entry.day)?;
    let amount = to_unsigned(entry.amount)?;
    Ok(ReceiptUse {
        loan,
        seq: receipt.seq,
        day,
        amount,
    })
}
