//! What is said of rows of entries and of receipts.

ghost use Rattle.std.specs.Prelude.{◌≡◌, string_bytes, IfOk, IsOkUnless};
ghost use Rattle.microloan_audit.specs.Words as spec;

use crate::catalogue::{NOT_NEXT, OUT_OF_ORDER};
use mf_base::Fault;
use mf_store_audit::{Doubt, EntryFlaw, ReceiptFlaw};
use mf_store_schema::EntryRow;
use std::alloc::Global;

/// What is said of rows that replaying the entries does not give.
pub(crate) const NOT_REPLAYED: &str = "not what replaying the entries gives";

/// What is said of a row of an entry.
pub(crate) fn words_of_entry(flaw: EntryFlaw) -> &'static str
    ensures { result.now ≡ spec.entry_words flaw }
{
    match flaw {
        EntryFlaw::Order => OUT_OF_ORDER,
        EntryFlaw::Loan => "its loan is not there",
        EntryFlaw::Undisbursed => "its loan is not disbursed",
        EntryFlaw::Number => NOT_NEXT,
        EntryFlaw::Limit => "its number is above 9999",
        EntryFlaw::Kind => "its kind is not 1 to 6",
        EntryFlaw::Day => "its day is no day up to 2099-12-31",
        EntryFlaw::Early => "its day is before its loan's disbursement",
        EntryFlaw::Late => "its day is after the business day",
        EntryFlaw::Amount => "its amount is below 0",
        EntryFlaw::Portion => "its portion is not 1 to 4",
        EntryFlaw::Reversed => "it is neither reversed (1) nor standing (0)",
        EntryFlaw::Columns =>
            "its amount, instalment, portion and receipt are not those of an entry of its kind",
        EntryFlaw::Receipt => "its receipt is not the text of one",
        EntryFlaw::Seal =>
            "a write-off or refund that stands, and another standing entry comes after it",
        EntryFlaw::Staff => "the member of staff who entered it is not there",
        EntryFlaw::Unlisted => "its receipt is not among the receipts as this entry's",
    }
}

/// What is said of a row of a suspect entry.
pub(crate) fn words_of_doubt(alloc: Global, row: &EntryRow, doubt: Doubt) -> Result<String, Fault>
    ensures text { IfOk result (λ text. string_bytes text ≡ spec.doubt_words doubt row.now) }
    ensures only { IsOkUnless result Fault.F20 }
{
    let staff = row.staff.as_str();
    match doubt {
        Doubt::Office => Ok(format!(in alloc; "{staff}, who entered it, can't see the loan")?),
        Doubt::Role => Ok(format!(in alloc;
            "{staff}, who entered it, may not enter this kind by their role"
        )?),
    }
}

/// What is said of a row of a receipt.
pub(crate) fn words_of_receipt(flaw: ReceiptFlaw) -> &'static str
    ensures { result.now ≡ spec.receipt_words flaw }
{
    match flaw {
        ReceiptFlaw::Order => OUT_OF_ORDER,
        ReceiptFlaw::Entry => "the entry that it names does not carry it",
    }
}
