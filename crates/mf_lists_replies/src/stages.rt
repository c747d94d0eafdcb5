//! Loans of one status, as JSON.

ghost use Rattle.std.specs.Prelude.{◌≡◌, true, IfOk, IfErr, string_bytes};
ghost use Rattle.serde_json.specs.Written.{compact_text, members_text};
ghost use Rattle.mf_lists_replies.specs.Lines.{stage_data, stage_end, stages_data};

use crate::lines::{ListLine, named_text};
use crate::texts::quoted_account;
use mf_base::Fault;
use mf_lists::StageLine;
use mf_office::OfficeNo;
use mf_wire_replies::{day_text, quoted_text, text_in};
use std::alloc::{AllocError, Global};

/// A loan's members from `name` on, and the closing bracket.
fn stage_end(alloc: Global, line: &StageLine) -> Result<String, AllocError>
    ensures { IfOk result (λ s. string_bytes s ≡ members_text true (stage_end line.now)) }
{
    let name = quoted_text(alloc, line.name.as_str())?;
    let principal = line.principal;
    let product = line.product;
    let room = name.len() + 64;
    let shown = format_args!(r#","name":{name},"principal":{principal},"product":{product}}}"#);
    text_in(alloc, room, shown)
}

impl ListLine for StageLine {
    type Place = OfficeNo;

    ghost json = { stage_data };

    fn put(&self, alloc: Global, place: OfficeNo, text: &mut String) -> Result<(), Fault> {
        let client = quoted_account(alloc, place, self.client)?;
        let day = day_text(alloc, self.day)?;
        let loan = quoted_account(alloc, place, self.loan)?;
        let end = stage_end(alloc, self)?;
        text.write(format_args!(r#"{{"client":{client},"day":{day},"loan":{loan}{end}"#))?;
        Ok(())
    }
}

/// The body that lists loans of one status.
pub fn stages_text(alloc: Global, office: OfficeNo, lines: &[StageLine]) -> Result<String, Fault>
    ensures ok { IfOk result (λ s. string_bytes s ≡ compact_text (stages_data office lines.now)) }
    ensures err { IfErr result (λ f. f ≡ Fault.F20) }
{
    named_text(alloc, office, r#"{"loans":["#, lines)
}
