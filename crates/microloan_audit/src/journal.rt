//! What is said of a journal that the program cannot have written.

ghost use Rattle.std.specs.Prelude.{◌≡◌, string_bytes, IfOk, IsOkUnless};
ghost use Rattle.microloan_audit.specs.Journal as spec;

use crate::played::stop_line;
use mf_base::Fault;
use mf_journal::Break;
use mf_play::Stop;
use mf_store_audit::BrokenJournal;
use mf_store_journal::Flaw;
use std::alloc::Global;

/// The condition by which a line does not follow on those before it.
fn break_words(flaw: Break) -> &'static str
    ensures { result.now ≡ spec.break_words flaw }
{
    match flaw {
        Break::Number => "its number is not the next one",
        Break::Day => "its day is earlier than that of the line before it",
        Break::Chain => "its chain is not that over all lines before it and itself",
    }
}

/// The line by its number, and what is wrong with it.
pub(crate) fn flaw_line(alloc: Global, flaw: Flaw) -> Result<String, Fault>
    ensures text { IfOk result (λ text. string_bytes text ≡ spec.flaw_line flaw) }
    ensures only { IsOkUnless result Fault.F20 }
{
    match flaw {
        Flaw::Broken(number, flaw) => {
            let words = break_words(flaw);
            Ok(format!(in alloc; "journal {number}: {words}")?)
        }
        Flaw::NoLine(after) => {
            Ok(format!(in alloc;
                "journal: the row after number {after} has values that no line has"
            )?)
        }
    }
}

/// What is wrong with the journal. The error is F20, out of memory.
pub(crate) fn journal_line(alloc: Global, broken: BrokenJournal) -> Result<String, Fault>
    ensures text { IfOk result (λ text. string_bytes text ≡ spec.journal_line broken) }
    ensures only { IsOkUnless result Fault.F20 }
{
    match broken {
        BrokenJournal::NoRows => Ok(format!(in alloc; "journal: no row says where it begins")?),
        BrokenJournal::NoBeginning => {
            Ok(format!(in alloc; "journal: its first row does not say where it begins")?)
        }
        BrokenJournal::Row(flaw) => flaw_line(alloc, flaw),
        BrokenJournal::NoRequest(number) => stop_line(alloc, number, Stop::NoRequest),
    }
}
