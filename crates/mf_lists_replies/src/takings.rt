//! What was paid in and paid out, as JSON.

ghost use Rattle.std.specs.Prelude.{◌≡◌, true, IfOk, IfErr, string_bytes};
ghost use Rattle.serde_json.specs.Written.{compact_text, members_text};
ghost use Rattle.mf_lists_replies.specs.Lines.{counted_data, taking_data, taking_end, takings_data};

use crate::lines::{ListLine, named_text};
use crate::texts::quoted_caller;
use mf_base::Fault;
use mf_lists::{Counted, Taking};
use mf_office::OfficeNo;
use mf_wire_replies::text_in;
use std::alloc::{AllocError, Global};

/// How many movements, and their sum.
fn counted_text(alloc: Global, counted: Counted) -> Result<String, AllocError>
    ensures { IfOk result (λ s. string_bytes s ≡ compact_text (counted_data counted)) }
{
    let count = counted.count;
    let sum = counted.sum;
    text_in(
        alloc,
        48,
        format_args!(r#"{{"count":{count},"sum":{sum}}}"#),
    )
}

/// The members of takings from `paid_in` on, and the closing bracket.
fn taking_end(alloc: Global, taking: &Taking) -> Result<String, Fault>
    ensures ok { IfOk result (λ s. string_bytes s ≡ members_text true (taking_end taking.now)) }
    ensures err { IfErr result (λ f. f ≡ Fault.F20) }
{
    let paid_in = counted_text(alloc, taking.paid_in)?;
    let paid_out = counted_text(alloc, taking.paid_out)?;
    let staff = quoted_caller(alloc, taking.staff)?;
    let shown = format_args!(r#","paid_in":{paid_in},"paid_out":{paid_out},"staff":{staff}}}"#);
    let end = text_in(alloc, 160, shown)?;
    Ok(end)
}

impl ListLine for Taking {
    type Place = OfficeNo;

    ghost json = { taking_data };

    fn put(&self, alloc: Global, _place: OfficeNo, text: &mut String) -> Result<(), Fault> {
        let in_reversed = counted_text(alloc, self.in_reversed)?;
        let out_reversed = counted_text(alloc, self.out_reversed)?;
        let end = taking_end(alloc, self)?;
        text.write(format_args!(
            r#"{{"in_reversed":{in_reversed},"out_reversed":{out_reversed}{end}"#
        ))?;
        Ok(())
    }
}

/// The body that lists the takings of an office on a day.
pub fn takings_text(alloc: Global, office: OfficeNo, lines: &[Taking]) -> Result<String, Fault>
    ensures ok { IfOk result (λ s. string_bytes s ≡ compact_text (takings_data office lines.now)) }
    ensures err { IfErr result (λ f. f ≡ Fault.F20) }
{
    named_text(alloc, office, r#"{"takings":["#, lines)
}
