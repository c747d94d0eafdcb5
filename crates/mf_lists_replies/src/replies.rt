//! The body and the line of an answer.

ghost use Rattle.std.specs.Prelude.{◌≡◌, IfOk, IfErr, string_bytes};
ghost use Rattle.serde_json.specs.Written.{compact_text};
ghost use Rattle.mf_wire_lines.specs.Replies.{reply_line};
ghost use Rattle.mf_lists_replies.specs.Lines.{told_data};
ghost use Rattle.mf_lists_replies.specs.Shown.{list_body};

use crate::changes::changes_text;
use crate::clients::{client_loans_text, clients_text, staff_text};
use crate::due::due_text;
use crate::previews::preview_text;
use crate::stages::stages_text;
use crate::takings::takings_text;
use mf_base::Fault;
use mf_lists::{ListAnswer, ListTold};
use mf_office::OfficeNo;
use mf_wire_replies::text_in;
use std::alloc::Global;

/// The body of a list of an office.
fn told_text(alloc: Global, office: OfficeNo, told: &ListTold) -> Result<String, Fault>
    ensures ok { IfOk result (λ s. string_bytes s ≡ compact_text (told_data office told.now)) }
    ensures err { IfErr result (λ f. f ≡ Fault.F20) }
{
    match told {
        ListTold::ClientLines(lines) => clients_text(alloc, office, lines.as_slice()),
        ListTold::ClientLoans(lines) => client_loans_text(alloc, office, lines.as_slice()),
        ListTold::DueLines(lines) => due_text(alloc, office, lines.as_slice()),
        ListTold::StageLines(lines) => stages_text(alloc, office, lines.as_slice()),
        ListTold::StaffLines(lines) => staff_text(alloc, office, lines.as_slice()),
        ListTold::ChangeLines(lines) => changes_text(alloc, office, lines.as_slice()),
        ListTold::TakingLines(lines) => takings_text(alloc, office, lines.as_slice()),
    }
}

/// The body of an answer: compact JSON, the members of each object in the order of their names. The only error is F20,
/// out of memory.
pub fn list_text(alloc: Global, answer: &ListAnswer) -> Result<String, Fault>
    ensures ok { IfOk result (λ s. string_bytes s ≡ list_body answer.now) }
    ensures err { IfErr result (λ f. f ≡ Fault.F20) }
{
    match answer {
        ListAnswer::Listed { office, told } => told_text(alloc, *office, told),
        ListAnswer::Previewed(shown) => preview_text(alloc, shown),
    }
}

/// The line of an answer, whole with its line feed. The only error is F20, out of memory.
pub fn list_line(alloc: Global, answer: &ListAnswer) -> Result<String, Fault>
    ensures ok { IfOk result (λ s. string_bytes s ≡ reply_line 200 (list_body answer.now)) }
    ensures err { IfErr result (λ f. f ≡ Fault.F20) }
{
    let body = list_text(alloc, answer)?;
    Ok(text_in(alloc, body.len() + 5, format_args!("200 {body}\n"))?)
}
