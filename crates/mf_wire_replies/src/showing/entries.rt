//! A loan's entries as JSON, each written at once.

ghost use Rattle.std.specs.Prelude.{◌≡◌, true, IfOk, IfErr, string_bytes};
ghost use Rattle.json.specs.Print.{quoted};
ghost use Rattle.serde_json.specs.Data.{boolean};
ghost use Rattle.serde_json.specs.Written.{compact_text, members_text};
ghost use Rattle.mf_wire_replies.specs.Json.{text_or_null, whole_or_null};
ghost use Rattle.mf_account.specs.Names.{entry_kind_name};
ghost use Rattle.mf_alloc.specs.Portions.{portion_name};
ghost use Rattle.mf_wire_replies.specs.AccountTexts.{instalment_for, portion_waived};
ghost use Rattle.mf_wire_replies.specs.AccountTexts.{share_data, entry_rest, entry_data, entries_data};

use super::lists::{Written, array_text, list_text};
use super::texts::{quoted_text, text_in};
use mf_account::{Entry, Kind};
use mf_alloc::{Portion, Share};
use mf_base::Fault;
use mf_statement::EntryLine;
use std::alloc::{AllocError, Global};

/// The name of a kind, as JSON.
fn quoted_kind(kind: Kind) -> &'static str
    ensures { result.now ≡ quoted (entry_kind_name kind) }
{
    match kind {
        Kind::Repay => "\"repayment\"",
        Kind::Fee => "\"fee\"",
        Kind::Penalty => "\"penalty\"",
        Kind::Waive => "\"waiver\"",
        Kind::WriteOff => "\"write-off\"",
        Kind::Refund => "\"refund\"",
    }
}

/// The name of a portion, as JSON.
fn quoted_portion(portion: Portion) -> &'static str
    ensures { result.now ≡ quoted (portion_name portion) }
{
    match portion {
        Portion::Penalty => "\"penalties\"",
        Portion::Fee => "\"fees\"",
        Portion::Interest => "\"interest\"",
        Portion::Principal => "\"principal\"",
    }
}

/// The portion that a waiver waives, or null.
fn waived_portion(entry: &Entry) -> &'static str
    ensures { result.now ≡ compact_text (text_or_null (portion_waived entry.now.kind entry.now.portion)) }
{
    match entry.kind {
        Kind::Waive => quoted_portion(entry.portion),
        Kind::Repay | Kind::Fee | Kind::Penalty | Kind::WriteOff | Kind::Refund => "null",
    }
}

/// Whether something holds, as JSON.
fn truth(holds: bool) -> &'static str
    ensures { result.now ≡ compact_text (boolean holds) }
{
    if holds { "true" } else { "false" }
}

/// A number, or null where there is none.
fn whole_or_null(alloc: Global, number: Option<u32>) -> Result<String, AllocError>
    ensures { IfOk result (λ s. string_bytes s ≡ compact_text (whole_or_null number)) }
{
    match number {
        Some(number) => format!(in alloc; "{number}"),
        None => String::from_str(alloc, "null"),
    }
}

/// The instalment that a fee, a penalty or a waiver is for, or null.
fn instalment_of(alloc: Global, entry: &Entry) -> Result<String, AllocError>
    ensures { IfOk result (λ s. string_bytes s
        ≡ compact_text (whole_or_null (instalment_for entry.now.kind entry.now.instalment))) }
{
    let instalment = match entry.kind {
        Kind::Fee | Kind::Penalty | Kind::Waive => Some(entry.instalment),
        Kind::Repay | Kind::WriteOff | Kind::Refund => None,
    };
    whole_or_null(alloc, instalment)
}

/// The receipt of a repayment, or null.
fn receipt_of(alloc: Global, entry: &Entry) -> Result<String, AllocError>
    ensures { IfOk result (λ s. string_bytes s ≡ compact_text (text_or_null entry.now.receipt)) }
{
    match &entry.receipt {
        Some(receipt) => quoted_text(alloc, receipt.as_str()),
        None => String::from_str(alloc, "null"),
    }
}

impl Written for Share {
    ghost json = { share_data };

    fn put(&self, _: Global, text: &mut String) -> Result<(), Fault> {
        let amount = self.amount;
        let instalment = self.cell.instalment;
        let portion = quoted_portion(self.cell.portion);
        text.write(format_args!(
            r#"{{"amount":{amount},"instalment":{instalment},"portion":{portion}}}"#
        ))?;
        Ok(())
    }
}

/// An entry's members from `portion` on, and the closing bracket.
fn entry_rest(alloc: Global, entry: &Entry, shares: &[Share]) -> Result<String, Fault>
    ensures ok { IfOk result (λ s. string_bytes s ≡ members_text true (entry_rest entry.now shares.now)) }
    ensures err { IfErr result (λ f. f ≡ Fault.F20) }
{
    let portion = waived_portion(entry);
    let receipt = receipt_of(alloc, entry)?;
    let reversed = truth(entry.reversed);
    let shares = array_text(alloc, shares)?;
    let staff = quoted_text(alloc, entry.staff.text(alloc)?.as_str())?;
    let shown = format_args!(
        r#","portion":{portion},"receipt":{receipt},"reversed":{reversed},"shares":{shares},"staff":{staff}}}"#
    );
    let rest = text_in(alloc, 384, shown)?;
    Ok(rest)
}

impl Written for EntryLine {
    ghost json = { entry_data };

    fn put(&self, alloc: Global, text: &mut String) -> Result<(), Fault> {
        let amount = self.amount;
        let day = quoted_text(alloc, self.entry.day.text(alloc)?.as_str())?;
        let entry = self.entry.seq;
        let instalment = instalment_of(alloc, &self.entry)?;
        let kind = quoted_kind(self.entry.kind);
        let rest = entry_rest(alloc, &self.entry, self.shares.as_slice())?;
        text.write(format_args!(
            r#"{{"amount":{amount},"day":{day},"entry":{entry},"instalment":{instalment},"kind":{kind}{rest}"#
        ))?;
        Ok(())
    }
}

/// The body that lists the entries of a loan.
pub fn entries_text(alloc: Global, lines: &[EntryLine]) -> Result<String, Fault>
    ensures ok { IfOk result (λ s. string_bytes s ≡ compact_text (entries_data lines.now)) }
    ensures err { IfErr result (λ f. f ≡ Fault.F20) }
{
    list_text(alloc, r#"{"entries":["#, lines)
}
