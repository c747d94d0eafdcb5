//! What the journal tells, as JSON.

ghost use Rattle.std.specs.Prelude.{◌≡◌, true, IfOk, IfErr, string_bytes};
ghost use Rattle.serde_json.specs.Written.{compact_text, members_text};
ghost use Rattle.mf_lists_replies.specs.Lines.{account_or_null, change_data, change_end, changes_data, text_or_null};

use crate::lines::{ListLine, named_text};
use crate::texts::{quoted_account, quoted_caller, quoted_day};
use mf_base::Fault;
use mf_lists::ChangeLine;
use mf_office::{AccountNo, OfficeNo};
use mf_statement::Listing;
use mf_wire_replies::{quoted_text, text_in};
use std::alloc::Global;

/// Bytes as a text, in quotes, or null where they are no UTF-8: a body that no route reads may be anything.
fn quoted_bytes(alloc: Global, bytes: &Listing<u8>) -> Result<String, Fault>
    ensures ok { IfOk result (λ s. string_bytes s ≡ compact_text (text_or_null bytes.now)) }
    ensures err { IfErr result (λ f. f ≡ Fault.F20) }
{
    match str::from_utf8(bytes.as_slice()) {
        Ok(text) => Ok(quoted_text(alloc, text)?),
        Err(_) => Ok(String::from_str(alloc, "null")?),
    }
}

/// The account of a loan of an office, or null where there is none.
fn account_text(alloc: Global, office: OfficeNo, loan: Option<AccountNo>) -> Result<String, Fault>
    ensures ok { IfOk result (λ s. string_bytes s ≡ compact_text (account_or_null office loan)) }
    ensures err { IfErr result (λ f. f ≡ Fault.F20) }
{
    match loan {
        Some(number) => quoted_account(alloc, office, number),
        None => Ok(String::from_str(alloc, "null")?),
    }
}

/// A change's members from `number` on, and the closing bracket.
fn change_end(alloc: Global, line: &ChangeLine) -> Result<String, Fault>
    ensures ok { IfOk result (λ s. string_bytes s ≡ members_text true (change_end line.now)) }
    ensures err { IfErr result (λ f. f ≡ Fault.F20) }
{
    let number = line.number;
    let path = quoted_bytes(alloc, &line.path)?;
    let staff = quoted_caller(alloc, line.caller)?;
    let told = quoted_bytes(alloc, &line.told)?;
    let shown = format_args!(r#","number":{number},"path":{path},"staff":{staff},"told":{told}}}"#);
    let end = text_in(alloc, 256, shown)?;
    Ok(end)
}

impl ListLine for ChangeLine {
    type Place = OfficeNo;

    ghost json = { change_data };

    fn put(&self, alloc: Global, place: OfficeNo, text: &mut String) -> Result<(), Fault> {
        let body = quoted_bytes(alloc, &self.body)?;
        let day = quoted_day(alloc, self.day)?;
        let loan = account_text(alloc, place, self.loan)?;
        let method = quoted_bytes(alloc, &self.method)?;
        let end = change_end(alloc, self)?;
        text.write(format_args!(
            r#"{{"body":{body},"day":{day},"loan":{loan},"method":{method}{end}"#
        ))?;
        Ok(())
    }
}

/// The body that lists changes of an office or of a loan.
pub fn changes_text(alloc: Global, office: OfficeNo, lines: &[ChangeLine]) -> Result<String, Fault>
    ensures ok { IfOk result (λ s. string_bytes s ≡ compact_text (changes_data office lines.now)) }
    ensures err { IfErr result (λ f. f ≡ Fault.F20) }
{
    named_text(alloc, office, r#"{"changes":["#, lines)
}
