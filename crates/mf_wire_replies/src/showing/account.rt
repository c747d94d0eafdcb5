//! A loan's instalments as JSON, each written at once.

ghost use Rattle.std.specs.Prelude.{◌≡◌, true, IfOk, IfErr, string_bytes};
ghost use Rattle.serde_json.specs.Written.{compact_text, members_text};
ghost use Rattle.mf_wire_replies.specs.AccountTexts.{instalment_data, instalments_data};
ghost use Rattle.mf_wire_replies.specs.AccountTexts.{instalment_rest};

use super::lists::{Written, list_text};
use super::texts::{quoted_text, text_in};
use mf_alloc::Portion;
use mf_base::Fault;
use mf_statement::InstalmentLine;
use std::alloc::{AllocError, Global};

/// An instalment's members from `outstanding` on, and the closing bracket.
fn instalment_rest(alloc: Global, line: &InstalmentLine) -> Result<String, AllocError>
    ensures { IfOk result (λ s. string_bytes s ≡ members_text true (instalment_rest line.now)) }
{
    let outstanding = line.outstanding;
    let penalties = line.owed[Portion::Penalty.index()];
    let principal = line.owed[Portion::Principal.index()];
    let shown = format_args!(
        r#","outstanding":{outstanding},"penalties":{penalties},"principal":{principal}}}"#
    );
    text_in(alloc, 96, shown)
}

impl Written for InstalmentLine {
    ghost json = { instalment_data };

    fn put(&self, alloc: Global, text: &mut String) -> Result<(), Fault> {
        let due = quoted_text(alloc, self.due.text(alloc)?.as_str())?;
        let number = self.number;
        let fees = self.owed[Portion::Fee.index()];
        let interest = self.owed[Portion::Interest.index()];
        let rest = instalment_rest(alloc, self)?;
        text.write(format_args!(
            r#"{{"due":{due},"fees":{fees},"interest":{interest},"number":{number}{rest}"#
        ))?;
        Ok(())
    }
}

/// The body that lists the instalments of a loan.
pub fn instalments_text(alloc: Global, lines: &[InstalmentLine]) -> Result<String, Fault>
    ensures ok { IfOk result (λ s. string_bytes s ≡ compact_text (instalments_data lines.now)) }
    ensures err { IfErr result (λ f. f ≡ Fault.F20) }
{
    list_text(alloc, r#"{"instalments":["#, lines)
}
