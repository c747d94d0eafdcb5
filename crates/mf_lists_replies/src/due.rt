//! Loans of which something is due, as JSON.

ghost use Rattle.std.specs.Prelude.{◌≡◌, true, IfOk, IfErr, string_bytes};
ghost use Rattle.serde_json.specs.Written.{compact_text, members_text};
ghost use Rattle.mf_lists_replies.specs.Lines.{due_data, due_end, due_list_data, last_or_null};

use crate::lines::{ListLine, named_text};
use crate::texts::{quoted_account, quoted_day};
use mf_base::Fault;
use mf_lists::{DueLine, LastEntry};
use mf_office::OfficeNo;
use mf_wire_replies::{quoted_text, sums_text, text_in};
use std::alloc::Global;

/// The last entry that counts, or null where there is none.
fn last_text(alloc: Global, last: Option<LastEntry>) -> Result<String, Fault>
    ensures ok { IfOk result (λ s. string_bytes s ≡ compact_text (last_or_null last)) }
    ensures err { IfErr result (λ f. f ≡ Fault.F20) }
{
    let Some(last) = last else {
        return Ok(String::from_str(alloc, "null")?);
    };
    let day = quoted_day(alloc, last.day)?;
    let entry = last.seq;
    let text = text_in(
        alloc,
        48,
        format_args!(r#"{{"day":{day},"entry":{entry}}}"#),
    )?;
    Ok(text)
}

/// A line's members from `left` on, and the closing bracket.
fn due_end(alloc: Global, office: OfficeNo, line: &DueLine) -> Result<String, Fault>
    ensures ok { IfOk result (λ s. string_bytes s ≡ members_text true (due_end office line.now)) }
    ensures err { IfErr result (λ f. f ≡ Fault.F20) }
{
    let left = line.left;
    let loan = quoted_account(alloc, office, line.loan)?;
    let name = quoted_text(alloc, line.name.as_str())?;
    let oldest = quoted_day(alloc, line.oldest)?;
    let shown = format_args!(r#","left":{left},"loan":{loan},"name":{name},"oldest":{oldest}}}"#);
    let end = text_in(alloc, 160, shown)?;
    Ok(end)
}

impl ListLine for DueLine {
    type Place = OfficeNo;

    ghost json = { due_data };

    fn put(&self, alloc: Global, place: OfficeNo, text: &mut String) -> Result<(), Fault> {
        let client = quoted_account(alloc, place, self.client)?;
        let due = sums_text(alloc, &self.due)?;
        let last = last_text(alloc, self.last)?;
        let end = due_end(alloc, place, self)?;
        text.write(format_args!(r#"{{"client":{client},"due":{due},"last":{last}{end}"#))?;
        Ok(())
    }
}

/// The body that lists loans of which something is due.
pub fn due_text(alloc: Global, office: OfficeNo, lines: &[DueLine]) -> Result<String, Fault>
    ensures ok { IfOk result (λ s. string_bytes s ≡ compact_text (due_list_data office lines.now)) }
    ensures err { IfErr result (λ f. f ≡ Fault.F20) }
{
    named_text(alloc, office, r#"{"due":["#, lines)
}
