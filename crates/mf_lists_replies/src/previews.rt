//! What a loan would be, as JSON.

ghost use Rattle.std.specs.Prelude.{◌≡◌, IfOk, IfErr, string_bytes};
ghost use Rattle.serde_json.specs.Written.{compact_text};
ghost use Rattle.mf_lists_replies.specs.Lines.{instalment_data, preview_data};

use crate::lines::{ListLine, lines_text};
use crate::texts::{quoted_day, whole_or_null};
use mf_base::Fault;
use mf_lists::LoanPreview;
use mf_schedule::FreshInstalment;
use mf_wire_replies::text_in;
use std::alloc::Global;

impl ListLine for FreshInstalment {
    type Place = ();

    ghost json = { λ place row. instalment_data row };

    fn put(&self, alloc: Global, _: (), text: &mut String) -> Result<(), Fault> {
        let due = quoted_day(alloc, self.due)?;
        let fees = self.fees;
        let interest = self.interest;
        let principal = self.principal;
        text.write(format_args!(
            r#"{{"due":{due},"fees":{fees},"interest":{interest},"principal":{principal}}}"#
        ))?;
        Ok(())
    }
}

/// The body that shows a preview.
pub fn preview_text(alloc: Global, shown: &LoanPreview) -> Result<String, Fault>
    ensures ok { IfOk result (λ s. string_bytes s ≡ compact_text (preview_data shown.now)) }
    ensures err { IfErr result (λ f. f ≡ Fault.F20) }
{
    let handed_over = shown.handed_over;
    let instalments = lines_text(alloc, (), shown.instalments.as_slice())?;
    let kept = shown.kept;
    let owed = shown.owed;
    let rate = whole_or_null(alloc, shown.rate)?;
    let room = instalments.len() + 160;
    let written = format_args!(
        "{{\"handed_over\":{handed_over},\"instalments\":{instalments},\"kept\":{kept},\"owed\":{owed},\
         \"rate\":{rate}}}"
    );
    let text = text_in(alloc, room, written)?;
    Ok(text)
}
